//! How often calls of `again` have answered 1.

ghost use Rattle.std.specs.Prelude.{◌≡◌, ◌<◌, length, slice_index};
ghost use Rattle.helpers.specs.Answers.{again_answer, counts_after};

/// Counts a call of `again` at a place, while it was counted less often than this limit. Answers 1 where it was
/// (docs/MACHINE.md, Helpers).
#[inline(always)]
#[tactic(auto, unfolding(crate::specs::Answers::again_answer))]
pub fn count_again(counts: &mut [u32], place: usize, limit: u64) -> u64
    requires place { place < length counts.old }
    requires limit { limit < 4294967296 }
    ensures counted { counts.new ≡ counts_after counts.old place limit }
    ensures answer { result ≡ again_answer (slice_index counts.old place) limit }
{
    if u64::from(counts[place]) < limit {
        counts[place] += 1;
        1
    } else {
        0
    }
}
