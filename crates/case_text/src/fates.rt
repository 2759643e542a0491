//! What may become of a part, as a list of fates.

ghost use Rattle.std.specs.Prelude.{◌≡◌, ◌<◌, ◌≤◌, ◌++◌, ◌∷◌, [], filter, map, length, None};
ghost use Rattle.std.specs.Option.{option_map_or};
ghost use Rattle.std.specs.Prelude.{slice_get};
ghost use Rattle.cases.specs.Sets.{has, fate_at, fates_in};
ghost use Rattle.cases.specs.Choices.{all_fates};
ghost use Rattle.cases.specs.Trees.{is_lost};
ghost use Rattle.case_text.specs.Known.{is_kept, is_free, is_mixed, is_never_whole, is_gone, is_never_gone};

use arrayvec::ArrayVec;
use cases::fate_at;
use choices::Fate;

/// What may become of a part, in the order of fates; `None` is whole.
pub type Fates = ArrayVec<Option<Fate>, 16>;

/// Whether a number is in a set.
fn has(set: u16, number: u8) -> bool
    requires { number < 16 }
    ensures { result ≡ has set number }
{
    set >> number & 1 == 1
}

/// Appends the fate of a number, if that is in a set.
fn push_fate(fates: &mut Fates, set: u16, number: u8)
    requires number { number < 16 }
    requires room { length fates.old.items < 16 }
    ensures { fates.new.items ≡ fates.old.items ++ map fate_at (filter (has set) (number ∷ [])) }
{
    if has(set, number) {
        fates.push(fate_at(number));
    }
}

/// The fates of a set.
pub fn fates_of(set: u16) -> Fates
    ensures { result.items ≡ fates_in set }
{
    let mut fates = ArrayVec::new();
    for number in 0..16 {
        push_fate(&mut fates, set, number);
    }
    fates
}

/// The set of a part by its number; all fates, where there is none.
pub fn set_at(sets: &[u16], tears: bool, number: usize) -> u16
    ensures { fates_in result ≡ option_map_or fates_in (slice_get sets.now number) (all_fates tears) }
{
    match sets.get(number) {
        Some(set) => *set,
        None => if tears { 65_535 } else { 3 },
    }
}

/// Whether the part is whole, and nothing else becomes of it.
pub fn is_kept(fates: &[Option<Fate>]) -> bool
    ensures { result ≡ is_kept fates.now }
{
    match fates {
        [None] => true,
        _ => false,
    }
}

/// Whether all that may become of a part may become of it.
pub fn is_free(tears: bool, fates: &[Option<Fate>]) -> bool
    ensures { result ≡ is_free tears fates.now }
{
    let all = if tears { 16 } else { 2 };
    fates.len() == all
}

/// Whether more than one fate may become of a part, and not all.
pub(crate) fn is_mixed(tears: bool, fates: &[Option<Fate>]) -> bool
    ensures { result ≡ is_mixed tears fates.now }
{
    let free = is_free(tears, fates);
    1 < fates.len() && !free
}

/// Whether a part isn't whole, whatever becomes of it.
pub fn is_never_whole(fates: &[Option<Fate>]) -> bool
    ensures { result ≡ is_never_whole fates.now }
{
    for fate in fates {
        if fate.is_none() {
            return false;
        }
    }
    true
}

/// Whether nothing of a part arrives.
pub(crate) fn is_gone(fate: Option<Fate>) -> bool
    ensures { result ≡ is_gone fate }
{
    match fate {
        Some(Fate::Drop) => true,
        Some(Fate::Head(_)) => false,
        Some(Fate::Tail(_)) => false,
        None => false,
    }
}

/// Whether something of a part arrives, whatever becomes of it.
pub(crate) fn is_never_gone(fates: &[Option<Fate>]) -> bool
    ensures { result ≡ is_never_gone fates.now }
{
    for fate in fates {
        if is_gone(*fate) {
            return false;
        }
    }
    true
}
