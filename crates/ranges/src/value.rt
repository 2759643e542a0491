//! What a register may hold.

ghost use Rattle.std.specs.Prelude.{◌≤◌};

use intervals::{Bounds, Range};

/// An offset in the context: 0 to 32.
#[derive(Clone, Copy, Debug, PartialEq, Eq)]
pub struct ContextOffset {
    pub offset: u8,
    pub ghost within: { offset ≤ 32 },
}

/// An offset from the lower end of a stack: 0 to 512.
#[derive(Clone, Copy, Debug, PartialEq, Eq)]
pub struct StackOffset {
    pub offset: u16,
    pub ghost within: { offset ≤ 512 },
}

/// The offsets from one to another from the start of a sector, both included.
#[derive(Clone, Copy, Debug, PartialEq, Eq)]
pub struct SectorOffsets {
    pub low: u16,
    pub high: u16,
    pub ghost ordered: { low ≤ high },
    pub ghost fits: { high ≤ 65535 },
}

/// What a register may hold (docs/VERIFIER.md, Abstract values).
#[derive(Clone, Copy, Debug, PartialEq, Eq)]
pub enum Value {
    /// Anything, unset too.
    Unset,
    /// Any word.
    Word,
    /// The words of both ranges of a number.
    Num(Bounds),
    /// The address of the context, and an offset.
    Ctx(ContextOffset),
    /// The lower end of the stack of the frame at hand, and an offset.
    Stack(StackOffset),
    /// The address of a sector of the device, and an offset.
    Sector(SectorOffsets),
    /// 0, or the address of a sector of the device.
    SectorOrNull,
}

impl Value {
    ghost use Rattle.std.specs.Prelude.{◌≡◌, IsTrue, ◌↔◌, not};
    ghost use Rattle.ranges.specs.Kinds.{join, round, Contains, is_number, is_unknown, is_unset};
    ghost use Rattle.ranges.specs.Reading.{is_stack, is_base, has_length, words};
    ghost use Rattle.ranges.specs.Seen.{kind_of};
    ghost use Rattle.intervals.specs.SeenBounds.{limits_of};

    /// The least value that holds all that either does (docs/VERIFIER.md, Abstract states).
    #[tactic(auto, unfolding(crate::specs::Kinds::join))]
    pub fn join(self, other: Value) -> Value
        ensures { kind_of result ≡ join (kind_of self) (kind_of other) }
    {
        match (self, other) {
            (Value::Num(x), Value::Num(y)) => Value::Num(x.join(y)),
            (Value::Ctx(a), Value::Ctx(b)) if a.offset == b.offset => self,
            (Value::Stack(a), Value::Stack(b)) if a.offset == b.offset => self,
            (Value::Sector(x), Value::Sector(y)) => Value::Sector(x.join(y)),
            (Value::SectorOrNull, Value::SectorOrNull) => self,
            (Value::Unset, _) | (_, Value::Unset) => Value::Unset,
            _ => Value::Word,
        }
    }

    /// Whether it holds all that the other does: the join of both is itself.
    #[inline(always)]
    #[tactic(auto, unfolding(crate::specs::Kinds::join))]
    pub fn contains(self, other: Value) -> bool
        ensures { IsTrue result ↔ Contains (kind_of self) (kind_of other) }
    {
        match (self, other) {
            (Value::Unset, _) => true,
            (Value::Word, other) => !matches!(other, Value::Unset),
            (Value::Num(x), Value::Num(y)) => x.contains(y),
            (Value::Ctx(a), Value::Ctx(b)) => a.offset == b.offset,
            (Value::Stack(a), Value::Stack(b)) => a.offset == b.offset,
            (Value::Sector(x), Value::Sector(y)) => x.low <= y.low && y.high <= x.high,
            (Value::SectorOrNull, Value::SectorOrNull) => true,
            _ => false,
        }
    }

    /// Its ranges go to the nearest ends that are 0, a power of two, or a power of two less one.
    #[tactic(auto, unfolding(crate::specs::Kinds::round))]
    pub fn round(self) -> Value
        ensures value { kind_of result ≡ round (kind_of self) }
        ensures kind { is_unknown (kind_of result) ≡ is_unknown (kind_of self) }
    {
        match self {
            Value::Num(x) => Value::Num(x.round()),
            Value::Sector(x) => Value::Sector(x.round()),
            value => value,
        }
    }

    /// Whether something is known of it.
    pub(crate) fn is_set(self) -> bool
        ensures { result ≡ not (is_unknown (kind_of self)) }
    {
        !matches!(self, Value::Unset | Value::Word)
    }

    /// Whether it isn't unset.
    pub(crate) fn is_word(self) -> bool
        ensures { result ≡ not (is_unset (kind_of self)) }
    {
        !matches!(self, Value::Unset)
    }

    /// Whether it is an offset in the stack.
    pub(crate) fn is_stack(self) -> bool
        ensures { result ≡ is_stack (kind_of self) }
    {
        matches!(self, Value::Stack(_))
    }

    /// Whether it is a pointer to bytes.
    pub(crate) fn is_base(self) -> bool
        ensures { result ≡ is_base (kind_of self) }
    {
        matches!(self, Value::Ctx(_) | Value::Stack(_) | Value::Sector(_))
    }

    /// Whether it is a constant that helper 2 takes as a length.
    pub(crate) fn has_length(self) -> bool
        ensures { result ≡ has_length (kind_of self) }
    {
        match self {
            Value::Num(x) => x.is_constant() && 1 <= x.unsigned.low && x.unsigned.low <= 512,
            _ => false,
        }
    }

    /// The words of a number; of what is none nothing is asked.
    pub(crate) fn words(self) -> Bounds
        ensures { limits_of result ≡ words (kind_of self) }
    {
        match self {
            Value::Num(x) => x,
            _ => Bounds::full(),
        }
    }

    /// Whether it is a number.
    pub fn is_number(self) -> bool
        ensures { result ≡ is_number (kind_of self) }
    {
        matches!(self, Value::Num(_))
    }
}

impl SectorOffsets {
    ghost use Rattle.std.specs.Prelude.{◌≡◌};
    ghost use Rattle.intervals.specs.Spans.{hull};
    ghost use Rattle.intervals.specs.Rounding.{round_span};
    ghost use Rattle.ranges.specs.Seen.{offsets_of};

    fn join(self, other: SectorOffsets) -> SectorOffsets
        ensures { offsets_of result ≡ hull (offsets_of self) (offsets_of other) }
    {
        SectorOffsets {
            low: self.low.min(other.low),
            high: self.high.max(other.high),
        }
    }

    fn round(self) -> SectorOffsets
        ensures { offsets_of result ≡ round_span (offsets_of self) }
    {
        let rounded = Range {
            low: u64::from(self.low),
            high: u64::from(self.high),
        }
        .round();
        SectorOffsets {
            low: rounded.low as u16,
            high: rounded.high as u16,
        }
    }
}
