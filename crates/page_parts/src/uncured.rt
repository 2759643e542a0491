//! How many failures of a program no flush takes away.

ghost use Rattle.std.specs.Prelude.{◌≡◌, ◌≤◌, ◌∷◌, [], length, filter};
ghost use Rattle.losses.specs.CureText.{is_uncured};

use losses::cure::Failure;

/// One where a failure is of that program and has no window, else none.
fn count_uncured(failure: Failure, program: usize) -> usize
    ensures value { result ≡ length (filter (is_uncured program) (failure ∷ [])) }
    ensures bound { result ≤ 1 }
{
    usize::from(usize::from(failure.program) == program && failure.window.is_none())
}

/// How many failures of a program have no window.
#[tactic(auto, using(crate::proofs::NoWindow::uncured_more))]
pub fn uncured_of(failures: &[Failure], program: usize) -> usize
    ensures value { result ≡ length (filter (is_uncured program) failures.now) }
    ensures bound { result ≤ length failures.now }
{
    let mut count = 0;
    for failure in failures {
        count += count_uncured(*failure, program);
    }
    count
}
