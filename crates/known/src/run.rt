//! Records: how a program of the user's ended on one image, and at which sectors it looked.

ghost use Rattle.std.specs.Prelude.{◌≡◌};
ghost use Rattle.machine.specs.Outcome.{fails};
ghost use Rattle.known.specs.declared.run.RunEnd.TheVariants.{Answer, Signal, OutOfTime};
ghost use Rattle.known.specs.Ends.{ending_of, same_end};

/// How a program ended on an image.
#[derive(Clone, Copy)]
pub enum RunEnd {
    /// It ended with this answer: 0 where it takes the image for a good one.
    Answer(u8),
    /// It was ended by this signal.
    Signal(u8),
    /// It was stopped when its time was over.
    OutOfTime,
}

/// What is known of a program: how it ended on the image of a cut and a choice, before which there were some marks, and at which
/// sectors it looked.
#[derive(Drop)]
pub struct KnownRun {
    /// The cut.
    pub cut: u32,
    /// For each part at risk there the set of the one fate that becomes of it.
    pub sets: Vec<u16>,
    /// How many marks were passed.
    pub marks: u32,
    /// How it ended.
    pub end: RunEnd,
    /// The sectors, in the order of the first looks.
    pub looked: Vec<u32>,
}

/// Whether an answer is that of an end.
fn is_answer(answer: u8, other: RunEnd) -> bool
    ensures { result ≡ same_end (Answer answer) other }
{
    match other {
        RunEnd::Answer(own) => answer == own,
        RunEnd::Signal(_) => false,
        RunEnd::OutOfTime => false,
    }
}

/// Whether a signal is that of an end.
fn is_signal(signal: u8, other: RunEnd) -> bool
    ensures { result ≡ same_end (Signal signal) other }
{
    match other {
        RunEnd::Answer(_) => false,
        RunEnd::Signal(own) => signal == own,
        RunEnd::OutOfTime => false,
    }
}

/// Whether an end is that of a program whose time was over.
fn is_out_of_time(other: RunEnd) -> bool
    ensures { result ≡ same_end OutOfTime other }
{
    match other {
        RunEnd::Answer(_) => false,
        RunEnd::Signal(_) => false,
        RunEnd::OutOfTime => true,
    }
}

/// Whether two runs ended alike.
pub fn is_same_end(one: RunEnd, other: RunEnd) -> bool
    ensures { result ≡ same_end one other }
{
    match one {
        RunEnd::Answer(answer) => is_answer(answer, other),
        RunEnd::Signal(signal) => is_signal(signal, other),
        RunEnd::OutOfTime => is_out_of_time(other),
    }
}

/// Whether a run failed: it didn't end in answer 0.
pub fn is_failing(end: RunEnd) -> bool
    ensures { result ≡ fails (ending_of end) }
{
    match end {
        RunEnd::Answer(answer) => answer != 0,
        RunEnd::Signal(_) => true,
        RunEnd::OutOfTime => true,
    }
}
