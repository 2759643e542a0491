//! How the process ends.

ghost use Rattle.std.specs.Prelude.{◌≡◌};
ghost use Rattle.commands.specs.Acting.{files_of};
ghost use Rattle.commands.specs.Exits.{Exits, Informs};

use crate::action::{HeldFiles, act_known};
use base::refusal::Refusal;
use command_line::Words;
use request::facts::RunFacts;
use std::alloc::Global;
use std::sync::Wait;
use std::thread::Threads;
use workers::Gate;

/// The status of a process that was refused.
const REFUSED: u8 = 2;

/// How the process ends (docs/COMMANDS.md, Exit status).
#[derive(Drop)]
pub struct Exit {
    /// All that goes to standard output.
    pub output: Vec<u8>,
    /// The refusal whose line goes to standard error, if there is one.
    pub refusal: Option<Refusal>,
    /// The status of the process.
    pub status: u8,
    /// What is known of the programs and the run, for the notes.
    pub facts: RunFacts,
}

/// Performs a command on what its files hold, as `act` does, and tells how the process ends: with an answer on standard output
/// and the status of `act`; or with nothing there, a refusal, and status 2.
pub fn perform<G: Gate + Sync, R: Threads + Wait + Sync>(
    rt: &R,
    alloc: Global,
    gate: &G,
    words: &Words,
    files: &[Option<Vec<u8>>],
    base: &Option<Option<Vec<u8>>>,
) -> Exit
    ensures ends { Exits words.now.request (files_of (λ f. f.items) files.now base.now words.now.choice) result.output.items result.refusal result.status }
    ensures informs { Informs words.now.request (files_of (λ f. f.items) files.now base.now words.now.choice) result.refusal result.status result.facts }
{
    let held = HeldFiles {
        named: files,
        base,
        choice: words.choice(),
    };
    match act_known(rt, alloc, gate, words, &held) {
        Ok(acted) => Exit {
            output: acted.bytes,
            refusal: None,
            status: acted.status,
            facts: acted.facts,
        },
        Err(refusal) => Exit {
            output: Vec::new(alloc),
            refusal: Some(refusal),
            status: REFUSED,
            facts: RunFacts::none(),
        },
    }
}
