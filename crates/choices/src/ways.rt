//! How many choices there are, by closed forms.

ghost use Rattle.std.specs.Prelude.{◌≡◌, ◌+◌, ◌*◌, ◌<◌, ◌≤◌};
ghost use Rattle.base.specs.Sizes.{most_units};
ghost use Rattle.choices.specs.Picks.{most_fates};
ghost use Rattle.choices.specs.Ways.{ways, ways_below, ways_within, pairs, triples};

/// How many pairs that many parts have.
fn pairs(parts: u32) -> u64
    requires { parts ≤ most_units }
    ensures value { result ≡ pairs parts }
    ensures bound { result ≤ 2199022206976 }
{
    let count = u64::from(parts);
    if count == 0 {
        0
    } else {
        count * (count - 1) / 2
    }
}

/// How many triples that many parts have.
fn triples(parts: u32) -> u64
    requires { parts ≤ most_units }
    ensures value { result ≡ triples parts }
    ensures bound { result ≤ 1537226473786572800 }
{
    let count = u64::from(parts);
    if count < 2 {
        0
    } else {
        count * (count - 1) * (count - 2) / 6
    }
}

/// How many choices of `size` departures there are among that many parts. The bounds are those of three
/// departures and of fewer, where parts have the most fates: their sum doesn't fit a word of 64 bits.
pub(crate) fn ways(fates: u8, size: u8, parts: u32) -> u128
    requires fates { fates ≤ most_fates }
    requires size { size ≤ 3 }
    requires parts { parts ≤ most_units }
    ensures value { result ≡ ways fates size parts }
    ensures bound { result ≤ 5188139349029683200000 }
    ensures few { size < 3 → result ≤ 494779996569600 }
{
    let fates = u128::from(fates);
    match size {
        0 => 1,
        1 => fates * u128::from(parts),
        2 => fates * fates * u128::from(pairs(parts)),
        _ => fates * fates * fates * u128::from(triples(parts)),
    }
}

/// How many choices of at most `bound` departures there are among that many parts.
pub(crate) fn ways_within(fates: u8, bound: u8, parts: u32) -> u128
    requires fates { fates ≤ most_fates }
    requires bound { bound ≤ 3 }
    requires parts { parts ≤ most_units }
    ensures value { result ≡ ways_within fates bound parts }
    ensures bound { result ≤ 5188140833369672908800 }
{
    let mut sum = 0;
    for size in 0..bound + 1 {
        sum += ways(fates, size, parts);
    }
    sum
}
