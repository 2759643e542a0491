//! Ranges of words, and what joins and rounds them.

ghost use Rattle.std.specs.Prelude.{◌≤◌, ◌<◌, ◌^◌};

use crate::powers::{ceiling, floor};

/// The words from `low` to `high`, both included. There is at least one.
#[derive(Clone, Copy, Debug, PartialEq, Eq)]
pub struct Range {
    /// The least word.
    pub low: u64,
    /// The greatest.
    pub high: u64,
    pub ghost ordered: { low ≤ high },
    pub ghost fits: { high < 2 ^ 64 },
}

impl Range {
    ghost use Rattle.std.specs.Prelude.{◌≡◌, ℕ, ◌-◌, IsTrue, ◌↔◌};
    ghost use Rattle.std.specs.Option.{option_map};
    ghost use Rattle.intervals.specs.Spans.{span, only, is_constant, nonempty, hull, Within};
    ghost use Rattle.intervals.specs.Rounding.{round_span};
    ghost use Rattle.intervals.specs.Seen.{span_of, immediate_span};

    /// All words.
    pub fn full() -> Range
        ensures { span_of result ≡ span 0 (2 ^ 64 - 1) }
    {
        Range {
            low: 0,
            high: u64::MAX,
        }
    }

    /// The words from one to another, if there are any.
    pub fn new(low: u64, high: u64) -> Option<Range>
        ensures { option_map span_of result ≡ nonempty (span low high) }
    {
        if low <= high {
            Some(Range { low, high })
        } else {
            None
        }
    }

    /// The words up to this one.
    pub fn up_to(high: u64) -> Range
        ensures { span_of result ≡ span 0 high }
    {
        Range { low: 0, high }
    }

    /// This word alone.
    pub fn constant(word: u64) -> Range
        ensures { span_of result ≡ only word }
    {
        Range {
            low: word,
            high: word,
        }
    }

    /// The second operand that the machine makes of the immediate of an arithmetic instruction or a
    /// branch: its sign is extended to 64 bits. `result` takes of it what a narrower width takes.
    pub fn immediate(immediate: i32) -> Range
        ensures { span_of result ≡ immediate_span immediate }
    {
        Range::constant(i64::from(immediate).cast_unsigned())
    }

    /// Whether it is one word.
    pub fn is_constant(self) -> bool
        ensures { result ≡ is_constant (span_of self) }
    {
        self.low == self.high
    }

    /// Whether each word of the other is one of its own.
    pub fn contains(self, other: Range) -> bool
        ensures { IsTrue result ↔ Within (span_of other) (span_of self) }
    {
        self.low <= other.low && other.high <= self.high
    }

    /// The least range that contains both.
    pub fn join(self, other: Range) -> Range
        ensures { span_of result ≡ hull (span_of self) (span_of other) }
    {
        Range {
            low: self.low.min(other.low),
            high: self.high.max(other.high),
        }
    }

    /// The least range that contains it, begins at 0 or a power of two, and ends at a power of two
    /// less one.
    #[tactic(auto, unfolding(crate::specs::Rounding::round_span))]
    pub fn round(self) -> Range
        ensures nearest { span_of result ≡ round_span (span_of self) }
        ensures contains { Within (span_of self) (span_of result) }
        ensures small { (bits : ℕ) → self.high < 2 ^ bits → result.high < 2 ^ bits }
    {
        Range {
            low: floor(self.low),
            high: ceiling(self.high),
        }
    }
}
