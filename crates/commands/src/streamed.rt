//! `export`, whose answer is written as it is made.

ghost use Rattle.std.specs.Prelude.{◌≡◌, OnOk, IfErr, false};
ghost use Rattle.request.specs.declared.command.Request.TheVariants as asks;
ghost use Rattle.commands.specs.Acting.{files_of, held_by};
ghost use Rattle.commands.specs.Exits.{IsWritten, IsStopped};

use crate::action::HeldFiles;
use export::Output;
use inspect::looks::{Stopped, write_images};
use request::{OptionWords, options_of};
use std::alloc::Global;
use std::io::Write;

/// What a command came to whose answer is written as it is made.
#[derive(Drop)]
pub struct Streamed<W> {
    /// Whether all of the answer was written.
    pub written: Result<(), Stopped>,
    /// Where it was written to.
    pub writer: W,
}

/// Writes what `export` answers of such words on these files.
fn write_export<W: Write>(
    alloc: Global,
    words: OptionWords,
    files: &HeldFiles<'_>,
    output: Output<W>,
) -> (Result<(), Stopped>, Output<W>)
    requires going { output.has_failed ≡ false }
    ensures all { OnOk result.0 (IsWritten (asks.Export words) (held_by files.now) (W.contents output.writer) (W.contents result.1.writer)) }
    ensures stopped { IfErr result.0 (IsStopped (asks.Export words) (held_by files.now) (W.contents output.writer) (W.contents result.1.writer)) }
{
    let options = match options_of(words) {
        Ok(options) => options,
        Err(refusal) => return (Err(Stopped::Refused(refusal)), output),
    };
    let recording = match files.recording() {
        Ok(recording) => recording,
        Err(refusal) => return (Err(Stopped::Refused(refusal)), output),
    };
    write_images(alloc, &recording, &options, output)
}

/// Performs `export` with such words on what its files hold, beside the text after `--choice`, as `perform` does, and writes the answer as it is made: whatever its length,
/// a piece of it is kept. Its status is 0 where all of it was written, and 2 where it wasn't.
pub fn perform_export<W: Write>(
    alloc: Global,
    words: OptionWords,
    files: &[Option<Vec<u8>>],
    base: &Option<Option<Vec<u8>>>,
    choice: &str,
    writer: W,
) -> Streamed<W>
    ensures all { OnOk result.written (IsWritten (asks.Export words) (files_of (λ f. f.items) files.now base.now choice.now) (W.contents writer) (W.contents result.writer)) }
    ensures stopped { IfErr result.written (IsStopped (asks.Export words) (files_of (λ f. f.items) files.now base.now choice.now) (W.contents writer) (W.contents result.writer)) }
{
    let held = HeldFiles {
        named: files,
        base,
        choice,
    };
    let output = Output::new(writer);
    let (written, output) = write_export(alloc, words, &held, output);
    Streamed {
        written,
        writer: output.into_writer(),
    }
}
