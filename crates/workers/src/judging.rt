//! The judging of one image.

ghost use Rattle.std.specs.Prelude.{◌≡◌, ◌<◌, ◌++◌, ◌∷◌, [], ℕ, length, OnOk, Some, slice_get};
ghost use Rattle.std.specs.List.{filter_map};
ghost use Rattle.choices.specs.Picked.{IsRanked, choice_of_picked};
ghost use Rattle.checker.specs.Checker.{IsFor, judgement};
ghost use Rattle.checker.specs.Memory.{IsServed, AreServed};
ghost use Rattle.interp.specs.Ending.{ending_of};
ghost use Rattle.images.specs.Views.{context_at, sectors_of, view_of};
ghost use Rattle.images.specs.Keys.{key_of};
ghost use Rattle.machine.specs.Outcome.{fails};
ghost use Rattle.verdict_cache.specs.Endings.{ending_on};
ghost use Rattle.workers.specs.Failing.{Subject, choices_of, ending_at, line_if, line_of, image_lines};
ghost use Rattle.workers.specs.Input.{line_list, IsRunOf};
ghost use Rattle.workers.specs.Local.{IsTrueOf};
ghost use Rattle.workers.specs.Images.{IsFinding, IsStop, finding_of};

use crate::block_lines::BlockLines;
use crate::cache::Shards;
use crate::gate::Gate;
use crate::input::Input;
use crate::look::Stop;
use crate::reuse::Reuse;
use crate::worker::Worker;
use checker::{Checker, RunMemory};
use choices::{Choice, Picked};
use epochs::By;
use images::{Changes, Key, View};
use interp::Outcome;
use report::lines::Line;
use std::alloc::AllocError;
use std::sync::Wait;
use verdict_cache::{Run, one_image_tells};

/// An image of a run: its number, its choice, and its view.
#[derive(Drop)]
pub(crate) struct Seen<'v, 'a> {
    pub(crate) image: u64,
    pub(crate) choice: &'v Choice,
    pub(crate) view: &'v View<'a>,
}

/// What is known of a checker and an image.
#[derive(Drop)]
pub(crate) enum Finding {
    /// The checker finds the image good.
    Good,
    /// The checker ends so on the image.
    Ends(Outcome),
    /// Nothing is known.
    Open,
}

impl Finding {
    /// What tells its end, if that is known.
    fn of(outcome: Option<Outcome>) -> Finding
        ensures { result ≡ finding_of outcome }
    {
        match outcome {
            Some(outcome) => Finding::Ends(outcome),
            None => Finding::Open,
        }
    }
}

/// Appends the line of an image and a checker that ended so, if it fails there.
fn push_failing(
    lines: &mut BlockLines,
    by: By,
    seen: &Seen<'_, '_>,
    number: u8,
    outcome: Outcome,
) -> Result<(), AllocError>
    ensures { OnOk result (lines.new ≡ lines.old ++ line_list (line_if by seen.now.image seen.now.choice.now number (ending_of outcome))) }
{
    if outcome.fails() {
        lines.push(Line {
            image: seen.image,
            cut: seen.choice.cut(),
            program: number,
            outcome,
            by,
            departures: seen.choice.departures_owned(),
        })?;
    }
    Ok(())
}

/// What a checker ends in on an image, where it is run. One that was verified is for the device of the log.
#[inline(always)]
fn outcome_on(memory: &mut RunMemory, view: &View<'_>, checker: &Checker<'_>) -> Outcome
    requires device { IsFor view.now.log.sectors checker.now.verified }
    requires served { IsServed memory.old checker.now.guards }
    ensures ends { ending_of result ≡ judgement checker.now (sectors_of view.now) (context_at view.now.log view.now.cut) }
    ensures memory { memory.new ≡ memory.old }
{
    checker.judge(memory, &view.context(), view)
}

/// Appends the line of an image and a checker, which is run, if it fails there.
#[tactic(auto, unfolding(crate::specs::Failing::ending_at))]
fn judge_checker(
    memory: &mut RunMemory,
    lines: &mut BlockLines,
    by: By,
    seen: &Seen<'_, '_>,
    number: u8,
    checker: &Checker<'_>,
) -> Result<(), AllocError>
    requires device { IsFor seen.now.view.now.log.sectors checker.now.verified }
    requires served { IsServed memory.old checker.now.guards }
    ensures lines { (s : Subject) → seen.now.view.now ≡ view_of s.plan seen.now.choice.now
        → OnOk result (lines.new ≡ lines.old ++ line_list (line_if by seen.now.image seen.now.choice.now number (ending_at s seen.now.choice.now checker.now))) }
    ensures memory { memory.new ≡ memory.old }
{
    let outcome = outcome_on(memory, seen.view, checker);
    push_failing(lines, by, seen, number, outcome)
}

/// What the checker of a key ends in on the key's image: what the cache has for it, or else what it ends
/// in when it is run, which is then put into the cache, if there is memory for that.
fn outcome_of<'a, J: Run, R: Wait>(
    rt: &R,
    shards: &Shards<'_, 'a, J>,
    seen: &Seen<'_, 'a>,
    memory: &mut RunMemory,
    key: &Key<'a>,
    checker: &Checker<'_>,
) -> Outcome
    requires image { seen.now.view.now ≡ view_of J.plan seen.now.choice.now }
    requires key { key_of seen.now.view.now key.now.program ≡ Some key.now }
    requires checker { slice_get J.checkers key.now.program ≡ Some checker.now }
    requires device { IsFor seen.now.view.now.log.sectors checker.now.verified }
    requires served { IsServed memory.old checker.now.guards }
    ensures ends { ending_of result ≡ ending_on J.plan seen.now.choice.now checker.now }
    ensures memory { memory.new ≡ memory.old }
{
    let shard = shards.of_key(key);
    if let Some(outcome) = shard.look(rt, key) {
        return outcome;
    }
    let outcome = outcome_on(memory, seen.view, checker);
    one_image_tells();
    if let Ok(own) = key.copy(shards.alloc()) {
        shard.put(rt, own, outcome.copy());
    }
    outcome
}

impl<'a> Input<'a> {
    /// The choice of those picks.
    pub(crate) fn choice_by(&self, picked: &Picked) -> Choice
        requires { (n : ℕ) × IsRanked self.now.plan self.now.bound self.now.tears n picked.now }
        ensures { result ≡ choice_of_picked self.now.plan picked.now }
    {
        picked.choice(self.plan)
    }

    /// Appends the lines of an image, on which each checker is run.
    fn judge_by_runs(
        &self,
        memory: &mut RunMemory,
        lines: &mut BlockLines,
        seen: &Seen<'_, '_>,
    ) -> Result<(), AllocError>
        requires choice { slice_get (choices_of self.now) seen.now.image ≡ Some seen.now.choice.now }
        requires view { seen.now.view.now ≡ view_of self.now.plan seen.now.choice.now }
        requires served { AreServed memory.old self.now.checkers }
        ensures lines { OnOk result (lines.new ≡ lines.old ++ image_lines self.now seen.now.image) }
        ensures memory { memory.new ≡ memory.old }
    {
        for (number, checker) in self.checkers.iter().enumerate() {
            judge_checker(memory, lines, self.by, seen, number as u8, checker)?;
        }
        Ok(())
    }

    /// Appends the line of an image and a checker, if it fails there. The checker is run where nothing is known.
    fn judge_known(
        &self,
        memory: &mut RunMemory,
        lines: &mut BlockLines,
        seen: &Seen<'_, '_>,
        number: usize,
        checker: &Checker<'_>,
        finding: Finding,
    ) -> Result<(), AllocError>
        requires choice { slice_get (choices_of self.now) seen.now.image ≡ Some seen.now.choice.now }
        requires view { seen.now.view.now ≡ view_of self.now.plan seen.now.choice.now }
        requires checker { slice_get self.now.checkers number ≡ Some checker.now }
        requires device { IsFor self.now.plan.log.sectors checker.now.verified }
        requires served { IsServed memory.old checker.now.guards }
        requires finding { IsFinding self.now seen.now.image seen.now.choice.now number checker.now finding }
        ensures lines { OnOk result (lines.new ≡ lines.old ++ filter_map (line_of self.now seen.now.image) (number ∷ [])) }
        ensures memory { memory.new ≡ memory.old }
    {
        match finding {
            Finding::Good => Ok(()),
            Finding::Ends(outcome) => push_failing(lines, self.by, seen, number as u8, outcome),
            Finding::Open => judge_checker(memory, lines, self.by, seen, number as u8, checker),
        }
    }

    /// What is known of a checker and the image of those picks. The checkers before one find it good; what that one ends in may
    /// be known.
    fn finding(
        &self,
        reuse: &mut Reuse,
        memory: &mut RunMemory,
        stop: &mut Stop,
        picked: &Picked,
        number: usize,
        checker: &Checker<'_>,
    ) -> Finding
        requires known { IsTrueOf self.now reuse.old }
        requires place { reuse.old.place ≡ Some picked.now.place }
        requires member { (n : ℕ) × IsRanked self.now.plan self.now.bound self.now.tears n picked.now }
        requires within { number < length self.now.checkers }
        requires checker { slice_get self.now.checkers number ≡ Some checker.now }
        requires device { IsFor self.now.plan.log.sectors checker.now.verified }
        requires served { IsServed memory.old checker.now.guards }
        requires stop { IsStop self.now picked.now stop.old }
        ensures known { IsTrueOf self.now reuse.new }
        ensures place { reuse.new.place ≡ reuse.old.place }
        ensures memory { memory.new ≡ memory.old }
        ensures stop { IsStop self.now picked.now stop.new }
        ensures finding { (image : ℕ) → IsRanked self.now.plan self.now.bound self.now.tears image picked.now
            → IsFinding self.now image (choice_of_picked self.now.plan picked.now) number checker.now result }
    {
        if number < stop.checker {
            return Finding::Good;
        }
        if number == stop.checker {
            return Finding::of(stop.outcome.take());
        }
        Finding::of(reuse.outcome(self, memory, number, checker, picked))
    }

    /// Appends the lines of an image of which outcomes may be known by footprints. The checkers before one find it good; what
    /// that one ends in may be known.
    pub(crate) fn judge_by_reuse(
        &self,
        reuse: &mut Reuse,
        memory: &mut RunMemory,
        lines: &mut BlockLines,
        seen: &Seen<'_, '_>,
        picked: &Picked,
        stop: &mut Stop,
    ) -> Result<(), AllocError>
        requires known { IsTrueOf self.now reuse.old }
        requires place { reuse.old.place ≡ Some picked.now.place }
        requires choice { slice_get (choices_of self.now) seen.now.image ≡ Some seen.now.choice.now }
        requires picked { seen.now.choice.now ≡ choice_of_picked self.now.plan picked.now }
        requires view { seen.now.view.now ≡ view_of self.now.plan seen.now.choice.now }
        requires stop { IsStop self.now picked.now stop.old }
        requires served { AreServed memory.old self.now.checkers }
        ensures known { IsTrueOf self.now reuse.new }
        ensures lines { OnOk result (lines.new ≡ lines.old ++ image_lines self.now seen.now.image) }
        ensures memory { memory.new ≡ memory.old }
    {
        for (number, checker) in self.checkers.iter().enumerate() {
            let told = self.finding(reuse, memory, stop, picked, number, checker);
            self.judge_known(memory, lines, seen, number, checker, told)?;
        }
        Ok(())
    }

    /// Appends the lines of an image that has this key for its first checker, with the help of the cache.
    fn judge_by_key<J: Run, R: Wait>(
        &self,
        rt: &R,
        shards: &Shards<'_, 'a, J>,
        memory: &mut RunMemory,
        lines: &mut BlockLines,
        seen: &Seen<'_, 'a>,
        mut key: Key<'a>,
    ) -> Result<(), AllocError>
        requires run { IsRunOf J.plan J.checkers self.now }
        requires choice { slice_get (choices_of self.now) seen.now.image ≡ Some seen.now.choice.now }
        requires view { seen.now.view.now ≡ view_of self.now.plan seen.now.choice.now }
        requires key { key_of seen.now.view.now 0 ≡ Some key }
        requires served { AreServed memory.old self.now.checkers }
        ensures lines { OnOk result (lines.new ≡ lines.old ++ image_lines self.now seen.now.image) }
        ensures memory { memory.new ≡ memory.old }
    {
        for (number, checker) in self.checkers.iter().enumerate() {
            key.set_program(number as u8);
            let outcome = outcome_of(rt, shards, seen, memory, &key, checker);
            push_failing(lines, self.by, seen, number as u8, outcome)?;
        }
        Ok(())
    }
}

impl<'b, 'a, J: Run, G: Gate> Worker<'b, 'a, J, G> {
    /// Appends the lines of an image. Its key is made once, for all checkers; an image without a key is judged
    /// without the cache, and without a cache no key is made.
    pub(crate) fn judge_image<R: Wait>(
        &self,
        rt: &R,
        changes: &mut Changes<'a>,
        memory: &mut RunMemory,
        lines: &mut BlockLines,
        image: u64,
        choice: &Choice,
    ) -> Result<(), AllocError>
        requires changes { changes.old ≡ self.now.input.now.plan.log }
        requires choice { slice_get (choices_of self.now.input.now) image ≡ Some choice.now }
        requires served { AreServed memory.old self.now.input.now.checkers }
        ensures lines { OnOk result (lines.new ≡ lines.old ++ image_lines self.now.input.now image) }
        ensures changes { changes.new ≡ changes.old }
        ensures memory { memory.new ≡ memory.old }
    {
        let input = self.input;
        let alloc = self.shards.alloc();
        let view = input.history.view(alloc, choice)?;
        let seen = Seen {
            image,
            choice: &*choice,
            view: &view,
        };
        if input.cache() == 0 {
            return input.judge_by_runs(memory, lines, &seen);
        }
        match changes.key(alloc, &view)? {
            Some(key) => input.judge_by_key(rt, self.shards, memory, lines, &seen, key),
            None => input.judge_by_runs(memory, lines, &seen),
        }
    }
}
