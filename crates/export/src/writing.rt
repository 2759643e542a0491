//! Writing all of an answer.

ghost use Rattle.std.specs.Prelude.{◌≡◌, ◌≢◌, ◌<◌, ◌≤◌, length, take, true, false, OnOk, OnErr, IfOk, IfErr};
ghost use Rattle.std.specs.Io.KnownBytes.{Appends, WriteAppends};
ghost use Rattle.std.specs.IoError.{error_kind};
ghost use Rattle.std.specs.declared.io.ErrorKind.TheVariants.{BrokenPipe, Interrupted};

use std::io::{self, ErrorKind, Write};

/// A writer, and whether a write to it has failed. It is asked for a write only while none has.
#[derive(Drop)]
pub struct Output<W> {
    writer: W,
    has_failed: bool,
    /// Whether the last write failed since it is a pipe that nobody reads any more.
    is_unread: bool,
}

impl<W: Write> Output<W> {
    /// A writer of which no write has failed.
    pub fn new(writer: W) -> Output<W>
        ensures writer { result.writer ≡ writer }
        ensures going { result.has_failed ≡ false }
        ensures read { result.is_unread ≡ false }
    {
        Output {
            writer,
            has_failed: false,
            is_unread: false,
        }
    }

    /// The writer, whatever became of its writes.
    pub fn into_writer(self) -> W
        ensures { result ≡ self.writer }
    {
        self.writer
    }

    /// Whether a write has failed.
    pub(crate) fn has_failed(&self) -> bool
        ensures { result ≡ self.now.has_failed }
    {
        self.has_failed
    }

    /// Whether the last write failed since it is a pipe that nobody reads any more.
    pub fn is_unread(&self) -> bool
        ensures { result ≡ self.now.is_unread }
    {
        self.is_unread
    }

    /// Asks the writer no more.
    pub(crate) fn close(&mut self)
        ensures writer { self.new.writer ≡ self.old.writer }
        ensures closed { self.new.has_failed ≡ true }
    {
        self.has_failed = true;
    }

    /// One write, with the writer's own answer. It has failed where the writer took no byte, or has a fault other than that
    /// a signal came between. Nobody reads the writer where its fault is that of a broken pipe, and of no other.
    fn write(&mut self, bytes: &[u8]) -> io::Result<usize>
        requires going { self.old.has_failed ≡ false }
        ensures bound { IfOk result (λ n. n ≤ length bytes.now) }
        ensures bytes { WriteAppends (W.contents self.old.writer) (W.contents self.new.writer) result bytes.now }
        ensures took { IfOk result (λ n. 0 < n → self.new.has_failed ≡ false) }
        ensures none { IfOk result (λ n. n ≡ 0 → self.new.has_failed ≡ true) }
        ensures interrupted { IfErr result (λ e. error_kind e ≡ Interrupted → self.new.has_failed ≡ false) }
        ensures failed { IfErr result (λ e. error_kind e ≢ Interrupted → self.new.has_failed ≡ true) }
        ensures unread { IfErr result (λ e. error_kind e ≡ BrokenPipe → self.new.is_unread ≡ true) }
        ensures other { IfErr result (λ e. error_kind e ≢ BrokenPipe → self.new.is_unread ≡ false) }
    {
        match self.writer.write(bytes) {
            Ok(more) => {
                self.has_failed = more == 0;
                Ok(more)
            }
            Err(error) => {
                self.has_failed = error.kind() != ErrorKind::Interrupted;
                self.is_unread = error.kind() == ErrorKind::BrokenPipe;
                Err(error)
            }
        }
    }
}

/// Writes all of these bytes, however few of them the writer takes at a time. The first write that fails, or takes no byte,
/// ends it: no write follows.
///
/// # Errors
///
/// A number n, where the writer fails or takes no byte: the first n bytes were written and no other.
pub fn emit<W: Write>(out: &mut Output<W>, bytes: &[u8]) -> Result<(), u64>
    requires going { out.old.has_failed ≡ false }
    ensures written { OnOk result (Appends (W.contents out.old.writer) (W.contents out.new.writer) bytes.now) }
    ensures part { IfErr result (λ n. (n < length bytes.now) × Appends (W.contents out.old.writer) (W.contents out.new.writer) (take n bytes.now)) }
    ensures going { OnOk result (out.new.has_failed ≡ false) }
    ensures failed { OnErr result (out.new.has_failed ≡ true) }
{
    let mut done = 0;
    for _turn in 0..u64::MAX {
        if done == bytes.len() {
            return Ok(());
        }
        match out.write(&bytes[done..]) {
            Ok(0) => return Err(done as u64),
            Ok(more) => done += more,
            Err(error) => {
                if error.kind() != ErrorKind::Interrupted {
                    return Err(done as u64);
                }
            }
        }
    }
    if done < bytes.len() {
        out.close();
        Err(done as u64)
    } else {
        Ok(())
    }
}
