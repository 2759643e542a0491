//! The flags of an entry.

ghost use Rattle.std.specs.Prelude.{◌≡◌, ◌<◌, ◌↔◌, IsSome, IfSome};
ghost use Rattle.logfmt.specs.Flags.{flag_word, has_bit};

/// What an entry asks of the device, or says of itself (docs/LOG-FORMAT.md, Flags; the flags of
/// Linux's `dm-log-writes`).
#[derive(Clone, Copy)]
pub struct Flags {
    /// The device makes durable what was written before.
    pub flush: bool,
    /// The entry's own data is durable when it is logged.
    pub fua: bool,
    /// The sectors are zeros afterwards; no data follows the header.
    pub discard: bool,
    /// A mark, which writes nothing.
    pub mark: bool,
    /// The data is metadata of a file system; kept, without meaning.
    pub metadata: bool,
}

impl Flags {
    /// The flags that a word of the log has, or none where it has a bit above 16.
    #[tactic(auto, unfolding(crate::specs::Flags::flag_word, crate::specs::Flags::has_bit))]
    pub fn of_word(word: u64) -> Option<Flags>
        ensures known { IsSome result ↔ (word < 32) }
        ensures word { IfSome result (λ f. flag_word f ≡ word) }
        ensures flush { IfSome result (λ f. f.flush ≡ has_bit word 1) }
        ensures fua { IfSome result (λ f. f.fua ≡ has_bit word 2) }
        ensures discard { IfSome result (λ f. f.discard ≡ has_bit word 4) }
        ensures mark { IfSome result (λ f. f.mark ≡ has_bit word 8) }
    {
        if word >= 32 {
            return None;
        }
        Some(Flags {
            flush: word % 2 == 1,
            fua: word / 2 % 2 == 1,
            discard: word / 4 % 2 == 1,
            mark: word / 8 % 2 == 1,
            metadata: word / 16 % 2 == 1,
        })
    }

    /// The word of the log that has these flags.
    #[tactic(auto, unfolding(crate::specs::Flags::flag_word))]
    pub fn word(self) -> u64
        ensures { result ≡ flag_word self }
    {
        worth(self.flush, 1)
            + worth(self.fua, 2)
            + worth(self.discard, 4)
            + worth(self.mark, 8)
            + worth(self.metadata, 16)
    }
}

ghost use Rattle.logfmt.specs.Flags.{worth as worth_of};

/// The bit of a flag that is set, else 0.
fn worth(flag: bool, bit: u64) -> u64
    ensures { result ≡ worth_of flag bit }
{
    if flag { bit } else { 0 }
}
