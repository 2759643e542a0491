//! Reading a file: no more than can be used.

ghost use Rattle.std.specs.Prelude.{ℕ, List, Option, Some, None, true, false, ◌+◌, ◌≡◌, ◌≢◌, ◌≤◌, ◌<◌, ◌++◌, ◌⊎◌, length, nat_le, take, ◌↔◌, option_map, IfOk, IsTrue, OnOk, IfSome, IsSome, if◌then◌else◌};
ghost use Rattle.std.specs.Fs.{file_type, metadata_len, IsFile};
ghost use Rattle.std.specs.Io.KnownBytes.{Consumes, IsAtEnd};
ghost use Rattle.input_files.specs.declared.kind.FileKind.TheVariants as kinds;
ghost use Rattle.input_files.specs.Contents.{counted_length, long_length, Holds};
ghost use Rattle.input_files.specs.Kinds.{base_read};
ghost use Rattle.input_files.specs.PartTexts.{cases_word, is_begun, part_line, part_read};
ghost use Rattle.input_files.specs.RawLogs.{read_raw};
ghost use Rattle.input_files.specs.Reads.{IsBase, IsRead};

use crate::cut::standing_length;
use crate::kind::FileKind;
use crate::reach::RawReach;
use crate::source::FileSource;
use base::limits::Limits;
use std::alloc::Global;
use std::fs::{Metadata, OpenFile};
use std::io;
use std::io::{ErrorKind, Read};

/// How many bytes of a program are counted that isn't a regular file: 64 MiB.
const MOST_COUNTED: u64 = 67_108_864;

/// What stands for the length of a program that is longer than all that is counted.
const UNCOUNTED: u64 = MOST_COUNTED + 8;

/// How many bytes are counted at a time, as many as a pipe holds.
const COUNTED_AT_ONCE: usize = 65_536;

/// How many bytes of a raw log are read at a time.
const READ_AT_ONCE: usize = 65_536;

/// How many bytes of a raw log tell how long its sectors are.
const SECTOR: usize = 512;

/// What was read of a file.
#[derive(Drop)]
pub(crate) struct ReadFile {
    /// Its bytes, or those that stand for them; none where it has too many.
    pub bytes: Option<Vec<u8>>,
    /// How many bytes it has, as far as that matters.
    pub length: u64,
}

/// The line with which the text of a part begins.
const PART_LINE: &[u8] = b"crash part 1\n";

/// The bytes with which the text of cases begins, as many as that line has.
const CASES_WORD: &[u8] = b"crash cases 1";

/// Reads on, up to `most` bytes; room is made once, where they are no more than `expected`.
fn read_more<F: Read>(
    file: &mut F,
    bytes: &mut Vec<u8>,
    most: usize,
    expected: usize,
) -> io::Result<()>
    ensures { OnOk result (IfSome (F.remaining file.old) (λ xs. bytes.new.items ≡ bytes.old.items ++ take most xs)) }
{
    bytes.reserve_exact(expected.saturating_add(1))?;
    let mut first = file.take(most as u64);
    first.read_to_end(bytes)?;
    Ok(())
}

/// The first bytes of a file, up to `most`; room is made once, where it is no longer than `expected`.
fn read_first<F: Read>(
    alloc: Global,
    file: &mut F,
    most: usize,
    expected: usize,
) -> io::Result<Vec<u8>>
    ensures bytes { IfOk result (λ bytes. IfSome (F.remaining file.old) (λ xs. bytes.items ≡ take most xs)) }
{
    let mut bytes = Vec::new(alloc);
    read_more(file, &mut bytes, most, expected)?;
    Ok(bytes)
}

/// Reads on, at most that many bytes, and answers whether the file is at its end.
fn read_part<F: Read>(
    alloc: Global,
    file: &mut F,
    bytes: &mut Vec<u8>,
    most: usize,
) -> io::Result<bool>
    requires { 0 < most }
    ensures read { OnOk result ((known : Option (List ℕ)) → Consumes known (F.remaining file.old) bytes.old.items → Consumes known (F.remaining file.new) bytes.new.items) }
    ensures room { OnOk result (length bytes.new.items ≤ length bytes.old.items + most) }
    ensures end { IfOk result (λ ended. ended ≡ true → IsAtEnd (F.remaining file.new)) }
{
    let mut part = Vec::new(alloc);
    part.resize(most, 0)?;
    match file.read(part.as_mut_slice()) {
        Ok(more) => {
            part.truncate(more);
            bytes.extend_from_slice(part.as_slice())?;
            Ok(more == 0)
        }
        Err(error) if error.kind() == ErrorKind::Interrupted => Ok(false),
        Err(error) => Err(error),
    }
}

/// Reads on to `needed` bytes, and answers whether they are there. Where they aren't, the file is at its end.
fn read_on<F: Read>(
    alloc: Global,
    file: &mut F,
    bytes: &mut Vec<u8>,
    needed: usize,
) -> io::Result<bool>
    requires { length bytes.old.items ≤ needed }
    ensures read { OnOk result ((known : Option (List ℕ)) → Consumes known (F.remaining file.old) bytes.old.items → Consumes known (F.remaining file.new) bytes.new.items) }
    ensures room { OnOk result (length bytes.new.items ≤ needed) }
    ensures there { IfOk result (λ there. there ≡ true → length bytes.new.items ≡ needed) }
    ensures end { IfOk result (λ there. there ≡ false → IsAtEnd (F.remaining file.new)) }
{
    for _turn in 0..u64::MAX {
        let lacking = needed - bytes.len();
        if lacking == 0 {
            return Ok(true);
        }
        if read_part(alloc, file, bytes, lacking.min(READ_AT_ONCE))? {
            return Ok(false);
        }
    }
    Err(io::Error::from(ErrorKind::Interrupted))
}

/// The first bytes of a raw log, as many as its entries need.
fn read_raw<F: Read>(alloc: Global, file: &mut F, limits: Limits) -> io::Result<Vec<u8>>
    ensures { IfOk result (λ bytes. IfSome (F.remaining file.old) (λ xs. bytes.items ≡ read_raw limits xs)) }
{
    let mut bytes = Vec::new(alloc);
    if !read_on(alloc, file, &mut bytes, SECTOR)? {
        return Ok(bytes);
    }
    let mut reach = RawReach::of_super(bytes.as_slice(), limits);
    loop {
        if !read_on(alloc, file, &mut bytes, reach.needed as usize)? {
            return Ok(bytes);
        }
        if reach.left == 0 {
            return Ok(bytes);
        }
        reach = reach.beyond(bytes.as_slice());
    }
}

/// Whether the first bytes of a file are those with which the text of a part begins, or that of cases.
#[tactic(auto, using(crate::proofs::PartTexts::is_either))]
fn is_begun(bytes: &[u8]) -> bool
    ensures { result ≡ is_begun bytes.now }
{
    bytes == PART_LINE || bytes == CASES_WORD
}

/// The first bytes of the text of a part or of cases, up to `most`; of a file that doesn't begin as one no more than as many as tell that.
fn read_part_text<F: Read>(
    alloc: Global,
    file: &mut F,
    most: usize,
    expected: usize,
) -> io::Result<Vec<u8>>
    ensures { IfOk result (λ bytes. IfSome (F.remaining file.old) (λ xs. bytes.items ≡ part_read most xs)) }
{
    let mut bytes = Vec::new(alloc);
    read_on(alloc, file, &mut bytes, most.min(PART_LINE.len()))?;
    if !is_begun(bytes.as_slice()) {
        return Ok(bytes);
    }
    let rest = most.saturating_sub(PART_LINE.len());
    read_more(file, &mut bytes, rest, expected.min(rest))?;
    Ok(bytes)
}

/// How many more bytes a file has, counted until they are more than `most`.
fn count_rest<F: Read>(alloc: Global, file: &mut F, most: u64) -> io::Result<u64>
    requires { most ≤ 67108864 }
    ensures all { IfOk result (λ n. n ≤ most → IfSome (F.remaining file.old) (λ rest. n ≡ length rest)) }
    ensures some { IfOk result (λ n. IfSome (F.remaining file.old) (λ rest. n ≤ length rest)) }
    ensures bound { IfOk result (λ n. n ≤ most + 65536) }
{
    let mut counted = 0u64;
    for _turn in 0..u64::MAX {
        if counted > most {
            return Ok(counted);
        }
        let mut part = Vec::new(alloc);
        let is_end = read_part(alloc, file, &mut part, COUNTED_AT_ONCE)?;
        counted += part.len() as u64;
        if is_end {
            return Ok(counted);
        }
    }
    Err(io::Error::from(ErrorKind::Interrupted))
}

/// The length that is told of a program of which that many bytes are counted.
fn counted_length(counted: u64) -> u64
    ensures { result ≡ counted_length counted }
{
    if counted > MOST_COUNTED {
        UNCOUNTED
    } else {
        counted
    }
}

/// How many bytes a program has of which as many were read as there may be: those after them are counted.
fn count_all<F: Read>(alloc: Global, file: &mut F, read: usize) -> io::Result<u64>
    requires { read ≡ 32776 }
    ensures no_fewer { IfOk result (λ n. read ≤ n) }
    ensures told { IfOk result (λ n. IfSome (F.remaining file.old) (λ rest. n ≡ counted_length (read + length rest))) }
{
    let rest = count_rest(alloc, file, MOST_COUNTED - read as u64)?;
    Ok(counted_length(read as u64 + rest))
}

/// How many bytes a program has of which `read` were read: those, if there may be no more; else what a regular file is
/// said to have; else as many as are counted.
fn program_length<F: Read>(
    alloc: Global,
    file: &mut F,
    read: usize,
    said: Option<u64>,
) -> io::Result<u64>
    requires { read ≤ 32776 }
    ensures whole { IfOk result (λ n. read < 32776 → n ≡ read) }
    ensures no_fewer { IfOk result (λ n. read ≤ n) }
    ensures said { (m : ℕ) → said ≡ Some m → read ≤ m → 32776 ≤ read → IfOk result (λ n. n ≡ m) }
    ensures told { IfOk result (λ n. 32776 ≤ read → IfSome (F.remaining file.old) (λ rest. n ≡ long_length said (read + length rest))) }
{
    if read < FileKind::Program.most_read() {
        return Ok(read as u64);
    }
    match said {
        Some(length) if length >= read as u64 => Ok(length),
        _ => count_all(alloc, file, read),
    }
}

/// Reads the text of a part or of cases.
fn read_part_piece<F: Read>(
    alloc: Global,
    file: &mut F,
    most: usize,
    expected: usize,
) -> io::Result<ReadFile>
    ensures held { IfOk result (λ piece. IfSome (F.remaining file.old) (λ xs. (piece.length ≡ length (part_read most xs)) × (option_map (λ b. b.items) piece.bytes ≡ Some (part_read most xs)))) }
    ensures some { IfOk result (λ piece. IsSome piece.bytes) }
{
    let bytes = read_part_text(alloc, file, most, expected)?;
    let length = bytes.len() as u64;
    Ok(ReadFile {
        bytes: Some(bytes),
        length,
    })
}

/// Reads a raw log.
fn read_raw_piece<F: Read>(alloc: Global, file: &mut F, limits: Limits) -> io::Result<ReadFile>
    ensures held { IfOk result (λ piece. IfSome (F.remaining file.old) (λ xs. (piece.length ≡ length (read_raw limits xs)) × (option_map (λ b. b.items) piece.bytes ≡ Some (read_raw limits xs)))) }
    ensures some { IfOk result (λ piece. IsSome piece.bytes) }
{
    let bytes = read_raw(alloc, file, limits)?;
    let length = bytes.len() as u64;
    Ok(ReadFile {
        bytes: Some(bytes),
        length,
    })
}

/// How many bytes a file is expected to have, of which at most that many are read.
fn expected_length(most: usize, said: Option<u64>) -> usize {
    match said {
        Some(length) if length <= most as u64 => length as usize,
        _ => most,
    }
}

/// How many bytes a file of a kind is expected to have. A part that isn't a regular file is one of many, and expected to have as many as a pipe holds.
fn expected_of(kind: FileKind, said: Option<u64>) -> usize {
    match (kind, said) {
        (FileKind::Part(_), None) => COUNTED_AT_ONCE,
        _ => expected_length(kind.most_read(), said),
    }
}

/// Reads a program, which is said to have that many bytes.
fn read_program<F: Read>(alloc: Global, file: &mut F, said: Option<u64>) -> io::Result<ReadFile>
    ensures held { IfOk result (λ piece. IfSome (F.remaining file.old) (λ xs. Holds kinds.Program said xs (option_map (λ b. b.items) piece.bytes) piece.length)) }
    ensures some { IfOk result (λ piece. IsSome piece.bytes) }
{
    let mut bytes = Vec::new(alloc);
    read_on(alloc, file, &mut bytes, FileKind::Program.most_read())?;
    let length = program_length(alloc, file, bytes.len(), said)?;
    bytes.truncate(standing_length(length));
    Ok(ReadFile {
        bytes: Some(bytes),
        length,
    })
}

/// An assembly text, or nothing where it has too many bytes.
fn short_text(bytes: Vec<u8>) -> Option<Vec<u8>>
    ensures { option_map (λ b. b.items) result ≡ (if nat_le (length bytes.items) 16777216 then Some bytes.items else None) }
{
    if bytes.len() <= FileKind::Text.most() {
        Some(bytes)
    } else {
        None
    }
}

/// Reads an assembly text.
fn read_text<F: Read>(alloc: Global, file: &mut F, expected: usize) -> io::Result<ReadFile>
    ensures { IfOk result (λ piece. IfSome (F.remaining file.old) (λ xs. Holds kinds.Text None xs (option_map (λ b. b.items) piece.bytes) piece.length)) }
{
    let bytes = read_first(alloc, file, FileKind::Text.most_read(), expected)?;
    let length = bytes.len() as u64;
    Ok(ReadFile {
        bytes: short_text(bytes),
        length,
    })
}

/// Reads the first bytes of a file, up to `most`.
fn read_whole<F: Read>(
    alloc: Global,
    file: &mut F,
    most: usize,
    expected: usize,
) -> io::Result<ReadFile>
    ensures held { IfOk result (λ piece. IfSome (F.remaining file.old) (λ xs. (piece.length ≡ length (take most xs)) × (option_map (λ b. b.items) piece.bytes ≡ Some (take most xs)))) }
    ensures some { IfOk result (λ piece. IsSome piece.bytes) }
{
    let bytes = read_first(alloc, file, most, expected)?;
    let length = bytes.len() as u64;
    Ok(ReadFile {
        bytes: Some(bytes),
        length,
    })
}

/// Reads a file of that kind, which is said to have that many bytes, where it is a regular one. What is kept of it is its
/// first bytes, all of them where it isn't too long; of a raw log those that its entries need.
///
/// # Errors
///
/// It can't be read, or there is no memory for it.
fn read_piece<F: Read>(
    alloc: Global,
    file: &mut F,
    kind: FileKind,
    said: Option<u64>,
) -> io::Result<ReadFile>
    ensures held { IfOk result (λ piece. IfSome (F.remaining file.old) (λ xs. Holds kind said xs (option_map (λ b. b.items) piece.bytes) piece.length)) }
    ensures some { IfOk result (λ piece. kind ≢ kinds.Text → IsSome piece.bytes) }
{
    let (most, expected) = (kind.most_read(), expected_of(kind, said));
    match kind {
        FileKind::Raw(limits) => read_raw_piece(alloc, file, limits),
        FileKind::Part(_) => read_part_piece(alloc, file, most, expected),
        FileKind::Program => read_program(alloc, file, said),
        FileKind::Text => read_text(alloc, file, expected),
        FileKind::Log(_) | FileKind::Image(_) => read_whole(alloc, file, most, expected),
        FileKind::Lines => read_whole(alloc, file, most, expected),
        FileKind::Report => read_whole(alloc, file, most, expected),
    }
}

/// How many bytes a file is said to have by that: as many as it tells, where it is a regular one.
fn regular_length(metadata: &Metadata) -> Option<u64>
    ensures regular { IsFile (file_type metadata.now) → result ≡ Some (metadata_len metadata.now) }
    ensures other { IsSome result → IsFile (file_type metadata.now) }
{
    if metadata.is_file() {
        Some(metadata.len())
    } else {
        None
    }
}

/// How many bytes a regular file is said to have.
fn said_length<F: OpenFile>(file: &F) -> Option<u64> {
    match file.metadata() {
        Ok(metadata) => regular_length(&metadata),
        Err(_error) => None,
    }
}

/// How many bytes what a device held is expected to have. Where its file isn't a regular one, these are no more than those of the largest
/// device without `--large`.
fn expected_of_base(most: usize, said: Option<u64>) -> usize {
    match said {
        Some(_length) => expected_length(most, said),
        None => most.min(FileKind::Image(Limits::Usual).most_read()),
    }
}

/// How many bytes are read of what a device of that many sectors held, within these limits.
fn most_of_base(sectors: u64, limits: Limits) -> usize
    ensures { result ≡ base_read sectors limits }
{
    512 * sectors.min(u64::from(limits.sectors())) as usize + 1
}

/// The first bytes of the file of that name, one more than a device of that many sectors has.
///
/// # Errors
///
/// It can't be read, or there is no memory for it.
pub(crate) fn read_base<S: FileSource + AllocGlobal>(
    rt: &S,
    name: &str,
    sectors: u64,
    limits: Limits,
) -> io::Result<Vec<u8>>
    ensures { IfOk result (λ bytes. IsBase S.named S.File.remaining sectors limits name.now bytes.items) }
{
    let mut file = rt.open_named(name)?;
    let said = said_length(&file);
    let most = most_of_base(sectors, limits);
    read_first(rt.alloc(), &mut file, most, expected_of_base(most, said))
}

/// Reads the file of that name.
///
/// # Errors
///
/// It can't be read, or there is no memory for it.
pub(crate) fn read_file<S: FileSource + AllocGlobal>(
    rt: &S,
    name: &str,
    kind: FileKind,
) -> io::Result<ReadFile>
    ensures held { IfOk result (λ piece. IsRead S.named S.File.remaining name.now kind (option_map (λ b. b.items) piece.bytes) piece.length) }
    ensures some { IfOk result (λ piece. kind ≢ kinds.Text → IsSome piece.bytes) }
{
    let mut file = rt.open_named(name)?;
    let said = said_length(&file);
    read_piece(rt.alloc(), &mut file, kind, said)
}
