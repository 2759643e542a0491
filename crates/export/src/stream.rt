//! A text on its way to a writer.

ghost use Rattle.std.specs.Prelude.{◌≡◌, ◌<◌, [], false, true, length, OnOk, OnErr};
ghost use Rattle.export.specs.Streaming.{stream_of, Puts, PutsAll, PutsPart};

use crate::writing::{Output, emit};
use std::alloc::Global;
use std::io::Write;

/// The number of waiting bytes from which on they are written.
const PIECE: usize = 65536;

/// Why a text isn't written whole.
#[derive(Clone, Copy)]
pub enum StreamFault {
    /// Memory was refused.
    Memory,
    /// The writer took no more.
    Unwritten,
    /// The writer is a pipe that nobody reads any more.
    Unread,
}

/// A text on its way to a writer. What waits to be written is less than a piece, and what was put last. Once a write has failed, or
/// there was no memory for what waits, it takes what is put and drops it.
#[derive(Drop)]
pub(crate) struct Stream<W> {
    output: Output<W>,
    waiting: Vec<u8>,
    /// Whether there was no memory for what waits.
    is_short: bool,
}

impl<W: Write> Stream<W> {
    /// A text of which nothing was put.
    pub(crate) fn new(alloc: Global, output: Output<W>) -> Stream<W>
        ensures output { result.output ≡ output }
        ensures waiting { result.waiting.items ≡ [] }
    {
        Stream {
            output,
            waiting: Vec::new(alloc),
            is_short: false,
        }
    }

    /// Where it was written to.
    pub(crate) fn into_output(self) -> Output<W>
        ensures { result ≡ self.output }
    {
        self.output
    }

    /// Whether it drops what is put.
    pub(crate) fn is_closed(&self) -> bool
        ensures { result ≡ self.now.output.has_failed }
    {
        self.output.has_failed()
    }

    /// Why it is closed.
    pub(crate) fn fault(&self) -> StreamFault {
        if self.is_short {
            StreamFault::Memory
        } else if self.output.is_unread() {
            StreamFault::Unread
        } else {
            StreamFault::Unwritten
        }
    }

    /// Writes what waits.
    fn flush(&mut self)
        requires going { self.old.output.has_failed ≡ false }
        requires some { 0 < length self.old.waiting.items }
        ensures puts { Puts (stream_of (W.contents self.old.output.writer) self.old.waiting.items self.old.output.has_failed) (stream_of (W.contents self.new.output.writer) self.new.waiting.items self.new.output.has_failed) [] }
        ensures none { self.new.output.has_failed ≡ false → self.new.waiting.items ≡ [] }
    {
        match emit(&mut self.output, self.waiting.as_slice()) {
            Ok(()) => self.waiting.clear(),
            Err(_written) => {}
        }
    }

    /// Puts bytes after what waits, where there are some and there is memory for them.
    fn keep(&mut self, bytes: &[u8])
        requires going { self.old.output.has_failed ≡ false }
        requires some { 0 < length bytes.now }
        ensures { Puts (stream_of (W.contents self.old.output.writer) self.old.waiting.items self.old.output.has_failed) (stream_of (W.contents self.new.output.writer) self.new.waiting.items self.new.output.has_failed) bytes.now }
    {
        match self.waiting.extend_from_slice(bytes) {
            Ok(()) => {}
            Err(_error) => {
                self.is_short = true;
                self.output.close();
            }
        }
    }

    /// Puts bytes.
    pub(crate) fn put(&mut self, bytes: &[u8])
        ensures { Puts (stream_of (W.contents self.old.output.writer) self.old.waiting.items self.old.output.has_failed) (stream_of (W.contents self.new.output.writer) self.new.waiting.items self.new.output.has_failed) bytes.now }
    {
        if self.is_closed() {
            return;
        }
        if bytes.is_empty() {
            return;
        }
        self.keep(bytes);
        self.pass_on();
    }

    /// Writes what waits, where it is a piece.
    fn pass_on(&mut self)
        ensures { Puts (stream_of (W.contents self.old.output.writer) self.old.waiting.items self.old.output.has_failed) (stream_of (W.contents self.new.output.writer) self.new.waiting.items self.new.output.has_failed) [] }
    {
        if self.is_closed() {
            return;
        }
        if self.waiting.len() < PIECE {
            return;
        }
        self.flush();
    }

    /// Writes all that waits.
    fn flush_rest(&mut self)
        ensures puts { Puts (stream_of (W.contents self.old.output.writer) self.old.waiting.items self.old.output.has_failed) (stream_of (W.contents self.new.output.writer) self.new.waiting.items self.new.output.has_failed) [] }
        ensures none { self.new.output.has_failed ≡ false → self.new.waiting.items ≡ [] }
    {
        if self.is_closed() {
            return;
        }
        if self.waiting.is_empty() {
            return;
        }
        self.flush();
    }

    /// Writes all that waits, and says whether all that was put is written.
    pub(crate) fn finish(&mut self) -> Result<(), StreamFault>
        ensures all { OnOk result (PutsAll (stream_of (W.contents self.old.output.writer) self.old.waiting.items self.old.output.has_failed) (stream_of (W.contents self.new.output.writer) self.new.waiting.items self.new.output.has_failed) []) }
        ensures part { OnErr result (Puts (stream_of (W.contents self.old.output.writer) self.old.waiting.items self.old.output.has_failed) (stream_of (W.contents self.new.output.writer) self.new.waiting.items self.new.output.has_failed) [] × (self.new.output.has_failed ≡ true)) }
    {
        self.flush_rest();
        if self.is_closed() {
            return Err(self.fault());
        }
        Ok(())
    }
}
