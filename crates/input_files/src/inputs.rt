//! The files of a command, as far as they were read.

ghost use Rattle.std.specs.Prelude.{ℕ, ◌≡◌, ◌≢◌, ◌+◌, ◌++◌, List, [], ◌∷◌, length, map, option_map, string_bytes, Option, Some, None, Ok, false, IfOk, IfErr, OnOk, IfSome};
ghost use Rattle.std.specs.IoError.{error_kind};
ghost use Rattle.std.specs.declared.io.ErrorKind.TheVariants.{OutOfMemory};
ghost use Rattle.input_files.specs.Kinds.{are_too_many};
ghost use Rattle.input_files.specs.Sized.{base_sectors};
ghost use Rattle.input_files.specs.Reads.{AreInputs, AreRead, HoldsBase, IsBase, IsRead};
ghost use Rattle.input_files.specs.Standing.{refusal_of_files};

use crate::cut::refusal_of_whole;
use crate::kind::{FileKind, MOST_OF_PARTS, MOST_PARTS, are_too_many, too_long_at, unreadable_at};
use crate::reading::{ReadFile, read_base, read_file};
use crate::source::FileSource;
use base::causes::RequestCause;
use base::limits::Limits;
use base::refusal::{Cause, Refusal};
use std::alloc::AllocError;
use std::io;
use std::io::ErrorKind;
use std::marker::Model;

/// The size of the device that a command asks for.
#[derive(Clone, Copy)]
pub struct DeviceSize {
    /// How many sectors it has; 0 where the command takes none.
    pub sectors: u64,
    /// How large it and its log may be.
    pub limits: Limits,
}

/// What is said of an assembly text that is too long.
const TOO_LONG: &str =
    "note: an assembly text has at most 16777216 bytes (docs/COMMANDS.md, How files are read)\n";

/// What the files of a command hold, in order.
#[derive(Drop)]
pub struct Inputs {
    held: Vec<Option<Vec<u8>>>,
    lengths: Vec<u64>,
    base: Option<Option<Vec<u8>>>,
}

impl Model for Inputs {
    ghost use Rattle.std.specs.Prelude.{map, option_map};
    ghost use Rattle.input_files.specs.Reads.{InputsValue};

    ghost Value = { InputsValue };

    ghost view = { λ i. record { files = map (option_map (λ f. f.items)) i.held.items; lengths = i.lengths.items; base = option_map (option_map (λ f. f.items)) i.base } };
}

/// What was read, or nothing where it couldn't be.
///
/// # Errors
///
/// There was no memory for it.
fn readable<T>(read: io::Result<T>) -> Result<Option<T>, AllocError>
    ensures read { IfOk read (λ x. result ≡ Ok (Some x)) }
    ensures unread { IfErr read (λ e. IfOk result (λ found. (found ≡ None) × (error_kind e ≢ OutOfMemory))) }
{
    match read {
        Ok(found) => Ok(Some(found)),
        Err(error) if error.kind() == ErrorKind::OutOfMemory => Err(AllocError),
        Err(_error) => Ok(None),
    }
}

/// What a file holds; nothing, of no length, where it can't be read.
///
/// # Errors
///
/// There is no memory for it.
fn read_one<S: FileSource + AllocGlobal>(
    rt: &S,
    name: &str,
    kind: FileKind,
) -> Result<ReadFile, AllocError>
    ensures { IfOk result (λ piece. IsRead S.named S.File.remaining name.now kind (option_map (λ b. b.items) piece.bytes) piece.length) }
{
    match readable(read_file(rt, name, kind))? {
        Some(piece) => Ok(piece),
        None => Ok(ReadFile {
            bytes: None,
            length: 0,
        }),
    }
}

/// What a device of that size held, by the file of that name; nothing where that can't be read.
///
/// # Errors
///
/// There is no memory for it.
fn base_of<S: FileSource + AllocGlobal>(
    rt: &S,
    name: &str,
    size: &DeviceSize,
) -> Result<Option<Vec<u8>>, AllocError>
    ensures { IfOk result (λ held. IfSome held (λ bytes. IsBase S.named S.File.remaining size.now.sectors size.now.limits name.now bytes.items)) }
{
    readable(read_base(rt, name, size.sectors, size.limits))
}

impl Inputs {
    /// Reads the files that the command of that name names, no more of each than it can use; and, where one is named, the one
    /// that holds what a device of that size held before. Of a log and of that it reads no more than the limits allow. Of parts it
    /// reads no more than 1 GiB and a byte together.
    ///
    /// # Errors
    ///
    /// There is no memory for one of them: 11, 26, 35, 66 or 72 at 0; or for the list of them: 72 at 0. They are more parts than can
    /// be joined: 65 at 4096. Of parts the first that can't be read, 14, or with which they have more than 1 GiB together, 65.
    pub fn read<S: FileSource + AllocGlobal>(
        rt: &S,
        command: &str,
        names: &[String],
        base: Option<&str>,
        size: &DeviceSize,
    ) -> Result<Inputs, Refusal>
        ensures count { OnOk result (are_too_many command.now (length names.now) ≡ false) }
        ensures read { IfOk result (AreInputs S.named S.File.remaining command.now size.now.sectors size.now.limits (map string_bytes names.now) (option_map (λ name. name.now) base.entry)) }
    {
        if are_too_many(command, names.len()) {
            return Err(too_long_at(MOST_PARTS));
        }
        let mut inputs = Inputs {
            held: Vec::new(rt.alloc()),
            lengths: Vec::new(rt.alloc()),
            base: None,
        };
        let mut left = MOST_OF_PARTS;
        for name in names {
            let rest = inputs.read_next(rt, command, name.as_str(), size.limits, left)?;
            left = rest;
        }
        inputs.read_base(rt, base, size)?;
        Ok(inputs)
    }

    /// Reads one more file of the command of that name. That many bytes are left for parts; answers how many are left after it.
    fn read_next<S: FileSource + AllocGlobal>(
        &mut self,
        rt: &S,
        command: &str,
        name: &str,
        limits: Limits,
        left: u32,
    ) -> Result<u32, Refusal>
        ensures files { (names : List (List ℕ)) → length names ≡ length self.old.lengths → AreRead command.now limits (IsRead S.named S.File.remaining) left names self.old.files self.old.lengths
            → IfOk result (λ rest. AreRead command.now limits (IsRead S.named S.File.remaining) rest (names ++ (name.now ∷ [])) self.new.files self.new.lengths) }
        ensures count { OnOk result (length self.new.lengths ≡ length self.old.lengths + 1) }
        ensures base { OnOk result (self.new.base ≡ self.old.base) }
    {
        let place = self.lengths.len();
        let kind = FileKind::of(command, place, limits, left);
        let Ok(piece) = read_one(rt, name, kind) else {
            return Err(kind.of_memory(place));
        };
        if kind.is_part() && piece.bytes.is_none() {
            return Err(unreadable_at(place));
        }
        let Some(rest) = kind.left_beyond(piece.length) else {
            return Err(too_long_at(place));
        };
        if self.push(piece).is_err() {
            return Err(Refusal::of_memory());
        }
        Ok(rest)
    }

    /// Reads what a device of that size held before, where a file is named for it.
    fn read_base<S: FileSource + AllocGlobal>(
        &mut self,
        rt: &S,
        base: Option<&str>,
        size: &DeviceSize,
    ) -> Result<(), Refusal>
        ensures base { OnOk result (HoldsBase (IsBase S.named S.File.remaining size.now.sectors size.now.limits) (option_map (λ name. name.now) base.entry) self.new.base) }
        ensures files { OnOk result (self.new.files ≡ self.old.files) }
        ensures lengths { OnOk result (self.new.lengths ≡ self.old.lengths) }
    {
        let Some(name) = base else {
            self.base = None;
            return Ok(());
        };
        let Ok(held) = base_of(rt, name, size) else {
            return Err(FileKind::Log(size.limits).of_memory(0));
        };
        self.base = Some(held);
        Ok(())
    }

    /// Appends what was read of one more file.
    fn push(&mut self, piece: ReadFile) -> Result<(), AllocError>
        ensures files { OnOk result (self.new.files ≡ self.old.files ++ (option_map (λ b. b.items) piece.bytes ∷ [])) }
        ensures lengths { OnOk result (self.new.lengths ≡ self.old.lengths ++ (piece.length ∷ [])) }
        ensures base { OnOk result (self.new.base ≡ self.old.base) }
    {
        self.lengths.push(piece.length)?;
        self.held.push(piece.bytes)?;
        Ok(())
    }

    /// What each file holds, or what stands for it; none where it can't be read.
    pub fn contents(&self) -> &[Option<Vec<u8>>]
        ensures { map (option_map (λ f. f.items)) result.now ≡ self.now.files }
    {
        self.held.as_slice()
    }

    /// What the file holds that is named for what the device held before; none where it can't be read.
    pub fn base(&self) -> &Option<Option<Vec<u8>>>
        ensures { option_map (option_map (λ f. f.items)) result.now ≡ self.now.base }
    {
        &self.base
    }

    /// How many whole sectors the file holds that is named for what the device held before; none where none is named, or it can't be read.
    pub fn base_sectors(&self) -> Option<u64>
        ensures { result ≡ base_sectors self.now.base }
    {
        match &self.base {
            Some(Some(bytes)) => Some(bytes.len() as u64 / 512),
            _ => None,
        }
    }

    /// The refusal of the files, made of that of what stands for them.
    pub fn refusal(&self, refusal: Refusal) -> Refusal
        ensures { result ≡ refusal_of_files self.now.lengths refusal }
    {
        let place = match refusal.program {
            Some(number) => usize::from(number) + 1,
            None => 0,
        };
        match self.lengths.get(place) {
            Some(length) => refusal_of_whole(refusal, *length),
            None => refusal,
        }
    }

    /// The note on a refusal that this crate has, which is empty where it has none.
    pub fn note(&self, refusal: &Refusal) -> &'static str {
        let place = refusal.at as usize;
        match refusal.code {
            Cause::Request(RequestCause::File) if self.is_too_long(place) => TOO_LONG,
            _ => "",
        }
    }

    /// Whether the file at a place was read, and has too many bytes to be one of its kind.
    fn is_too_long(&self, place: usize) -> bool {
        match (self.held.get(place), self.lengths.get(place)) {
            (Some(None), Some(length)) => *length > 0,
            _ => false,
        }
    }
}
