//! The search for the cases of some cuts, as far as records tell.

ghost use Rattle.std.specs.Prelude.{◌≡◌, ◌+◌, ◌≤◌, [], length, All, IfOk, IfErr, OnOk};
ghost use Rattle.epochs.specs.Units.{marks_at};
ghost use Rattle.losses.specs.FoundCases.{most_cases};
ghost use Rattle.known.specs.Records.{program_of};
ghost use Rattle.known.specs.Found.{IsKnownAt, AreKnown, cases_at, cases_in, StopsAt, StopsIn, WentOn};

use crate::found::{KnownAt, Stops};
use crate::judge::KnownJudge;
use crate::records::KnownRecords;
use case_runs::SearchFault;
use cases::{Cut, Judge, Search};
use epochs::{By, Plan};
use logfmt::Log;
use losses::found::{Losses, MOST_CASES};
use std::alloc::{AllocError, Global};

/// Goes on with a search, to its end, to where it is to stop, or to as many leaves as are wanted, and tells the judge of each.
fn go_on(
    search: &mut Search<'_>,
    judge: &mut KnownJudge<'_>,
    stops: Stops,
    most: u32,
) -> Result<(), AllocError>
    requires { judge.old.leaves ≡ [] }
    ensures { OnOk result (WentOn (program_of judge.old.records judge.old.marks) stops search.old search.new judge.new.leaves most) }
{
    for count in 0..most {
        if judge.has_stopped(stops) {
            return Ok(());
        }
        if !search.next(judge)? {
            return Ok(());
        }
        judge.tell(search.cut(), search.sets())?;
    }
    Ok(())
}

/// What records tell of a cut, before which there are `marks` marks, if the search comes to no more than `left` leaves.
fn known_at(
    alloc: Global,
    log: &Log<'_>,
    way: By,
    number: u32,
    marks: u32,
    records: &KnownRecords<'_>,
    asked: Losses,
    stops: Stops,
    left: u32,
) -> Result<KnownAt, SearchFault>
    requires cut { number ≤ length log.now.entries }
    requires marks { marks ≡ marks_at log.now.entries number }
    requires few { left ≤ most_cases }
    ensures found { IfOk result (IsKnownAt asked (record { log = log.now; way = way; cut = number }) records.now stops) }
    ensures few { IfOk result (λ found. cases_at found ≤ left) }
    ensures many { IfErr result (StopsAt asked (record { log = log.now; way = way; cut = number }) records.now stops left) }
{
    let cut = Cut::new(alloc, log, way, number)?;
    let mut search = Search::new(alloc, &cut, asked.tears, asked.torn, asked.lost)?;
    let mut judge = KnownJudge::new(alloc, records, marks);
    go_on(&mut search, &mut judge, stops, left + 1)?;
    if judge.count() > left as usize {
        return Err(SearchFault::TooMany(number));
    }
    let torn = search.torn_beyond();
    let lost = search.lost_beyond();
    let pending = search.take_all(alloc)?;
    Ok(judge.into_found(number, torn, lost, pending.len()))
}

/// What records of a program tell of the cases of some cuts of a log, which may be that of the records with flushes that were added to it.
///
/// # Errors
///
/// Memory was refused, or there were more than `MOST_CASES` told leaves and open cases.
pub fn find_known(
    alloc: Global,
    plan: &Plan<'_>,
    log: &Log<'_>,
    way: By,
    cuts: &[u32],
    records: &KnownRecords<'_>,
    asked: Losses,
    stops: Stops,
) -> Result<Vec<KnownAt>, SearchFault>
    requires plan { plan.now.log ≡ log.now }
    requires cuts { All (λ cut. cut ≤ length log.now.entries) cuts.now }
    ensures found { IfOk result (λ found. AreKnown asked log.now way cuts.now records.now stops found.items) }
    ensures few { IfOk result (λ found. cases_in found.items ≤ most_cases) }
    ensures refused { IfErr result (StopsIn asked log.now way cuts.now records.now stops) }
{
    let mut left = MOST_CASES;
    let mut out = Vec::new(alloc);
    for number in cuts {
        let marks = plan.marks(*number);
        let found = known_at(alloc, log, way, *number, marks, records, asked, stops, left)?;
        left -= (found.told + found.open_cases.len()) as u32;
        out.push(found)?;
    }
    Ok(out)
}
