//! What a command takes a file for, and how much of it is read.

ghost use Rattle.std.specs.Prelude.{◌≡◌};
ghost use Rattle.input_files.specs.Kinds.{are_too_many, checked_kind, kind_of, left_beyond, most_of, read_of, number_of, memory_of, is_part, too_long_at, unreadable_at};

use base::causes::{AsmCause, CodeCause, JoinCause, LogCause, RequestCause};
use base::limits::Limits;
use base::refusal::{Cause, Refusal};

/// How many parts are joined at most.
pub(crate) const MOST_PARTS: usize = 4096;

/// How many bytes they have together at most: 1 GiB.
pub(crate) const MOST_OF_PARTS: u32 = 1_073_741_824;

/// What a command takes a file for (docs/COMMANDS.md, Commands).
#[derive(Clone, Copy)]
pub enum FileKind {
    /// A log within these limits.
    Log(Limits),
    /// A raw log, or a log device, of which the entries may need as many bytes as these limits say.
    Raw(Limits),
    Program,
    /// An assembly text.
    Text,
    /// The bytes of a device within these limits.
    Image(Limits),
    /// At which line of C each slot of a program comes.
    Lines,
    /// The text of a part of a run, for which that many bytes are left.
    Part(u32),
    /// A report that is given in place of programs.
    Report,
}

impl FileKind {
    /// What the command of that name takes the file at that place for, within these limits. For parts that many bytes are left.
    pub fn of(command: &str, place: usize, limits: Limits, left: u32) -> FileKind
        ensures { result ≡ kind_of command.now place limits left }
    {
        match command {
            "asm" => FileKind::Text,
            "import" => FileKind::Raw(limits),
            "verify" | "list" => FileKind::Program,
            "check" => checked_kind(place, limits),
            "join" => FileKind::Part(left),
            "report" if place == 1 => FileKind::Report,
            _ if place == 0 => FileKind::Log(limits),
            _ => FileKind::Program,
        }
    }

    /// How many bytes a file of this kind has at most: what the limits allow of a log, a raw log and an image, 4,096 slots,
    /// 16 MiB, 1 MiB, what is left for parts. Of a raw log that is how many its entries may need.
    pub fn most(self) -> usize
        ensures { result ≡ most_of self }
    {
        match self {
            FileKind::Log(limits) => limits.bytes(),
            FileKind::Raw(limits) => limits.raw_bytes(),
            FileKind::Program => 32_768,
            FileKind::Text => 16_777_216,
            FileKind::Image(limits) => 512 * limits.sectors() as usize,
            FileKind::Lines => 1_048_576,
            FileKind::Part(left) => left as usize,
            FileKind::Report => 1_073_741_824,
        }
    }

    /// How many bytes are read of a file of this kind at most: as many as show that there are too many. Of a program that is
    /// a slot more, so that a text of each length modulo 8 can stand for a longer one, and of a raw log no more.
    pub fn most_read(self) -> usize
        ensures { result ≡ read_of self }
    {
        match self {
            FileKind::Log(limits) => limits.bytes() + 1,
            FileKind::Raw(limits) => limits.raw_bytes(),
            FileKind::Program => 32_776,
            FileKind::Text => 16_777_217,
            FileKind::Image(limits) => 512 * limits.sectors() as usize + 1,
            FileKind::Lines => 1_048_577,
            FileKind::Part(left) => left as usize + 1,
            FileKind::Report => 1_073_741_825,
        }
    }

    /// The refusal of the file at that place for want of memory: 11, 26, 35, 66 or 72 at 0, with the number of the program where
    /// a log stands before it.
    pub fn of_memory(self, place: usize) -> Refusal
        ensures { result ≡ memory_of self place }
    {
        match self {
            FileKind::Log(_) | FileKind::Raw(_) => {
                refusal_of(Cause::Log(LogCause::Memory), None)
            }
            FileKind::Program => refusal_of(Cause::Code(CodeCause::Memory), program_at(place)),
            FileKind::Text => refusal_of(Cause::Asm(AsmCause::Memory), None),
            FileKind::Image(_) | FileKind::Lines | FileKind::Report => Refusal::of_memory(),
            FileKind::Part(_) => refusal_of(Cause::Join(JoinCause::Memory), None),
        }
    }

    /// Whether it is the text of a part.
    pub fn is_part(self) -> bool
        ensures { result ≡ is_part self }
    {
        match self {
            FileKind::Part(_) => true,
            _ => false,
        }
    }

    /// How many bytes are left for parts after this file, which has that many; none where it is a part that has more than were left.
    pub fn left_beyond(self, length: u64) -> Option<u32>
        ensures { result ≡ left_beyond self length }
    {
        match self {
            FileKind::Part(left) if length <= u64::from(left) => Some(left - length as u32),
            FileKind::Part(_) => None,
            _ => Some(MOST_OF_PARTS),
        }
    }
}

/// The refusal of the file at that place, which can't be read.
pub(crate) fn unreadable_at(place: usize) -> Refusal
    ensures { result ≡ unreadable_at place }
{
    Refusal {
        code: Cause::Request(RequestCause::File),
        at: place as u64,
        program: None,
    }
}

/// Whether that many files are more than the command of that name takes.
pub(crate) fn are_too_many(command: &str, count: usize) -> bool
    ensures { result ≡ are_too_many command.now count }
{
    match command {
        "join" => count > MOST_PARTS,
        _ => false,
    }
}

/// The refusal of parts that are too many, or too long together, from the file at that place on.
pub(crate) fn too_long_at(place: usize) -> Refusal
    ensures { result ≡ too_long_at place }
{
    Refusal {
        code: Cause::Join(JoinCause::TooLong),
        at: place as u64,
        program: None,
    }
}

/// What `check` takes the file at that place for, within these limits.
fn checked_kind(place: usize, limits: Limits) -> FileKind
    ensures { result ≡ checked_kind place limits }
{
    if place == 0 {
        FileKind::Program
    } else if place == 1 {
        FileKind::Image(limits)
    } else {
        FileKind::Lines
    }
}

/// The refusal at 0 for that cause.
fn refusal_of(code: Cause, program: Option<u8>) -> Refusal
    ensures { result ≡ record { code = code; at = 0; program = program } }
{
    Refusal {
        code,
        at: 0,
        program,
    }
}

/// The number of the program at a place among the files, where a log stands before it.
fn program_at(place: usize) -> Option<u8>
    ensures { result ≡ number_of place }
{
    if 1 <= place && place <= 256 {
        Some((place - 1) as u8)
    } else {
        None
    }
}
