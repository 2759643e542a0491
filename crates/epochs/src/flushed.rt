//! The last flush before a cut.

ghost use Rattle.std.specs.Prelude.{◌≡◌, ◌≤◌, length};
ghost use Rattle.epochs.specs.Laws.{last_flush};

use logfmt::Entry;

/// The last flush entry before a cut, or 0 where there is none.
pub fn last_flush(entries: &[Entry], cut: u32) -> u32
    requires { cut ≤ length entries.now }
    ensures value { result ≡ last_flush entries.now cut }
    ensures bound { result ≤ cut }
{
    let mut number = cut;
    while number > 0 {
        number -= 1;
        if entries[number as usize].flags.flush {
            return number;
        }
    }
    0
}
