//! The run that the program holds itself.

ghost use Rattle.std.specs.Prelude.{◌≡◌, IfOk, map};
ghost use Rattle.commands.specs.Stored.{stored_log, stored_programs, stored_settings};

use request::{Options, Settings};
use std::alloc::{AllocError, Global};

/// The log and the program of a run, as bytes.
type Files = (Vec<u8>, Vec<Vec<u8>>);

/// The first bytes of the log, a super block without entries; zeros follow.
const STORED_SUPER: [u8; 32] = [
    0x72, 0x68, 0x73, 0x77, 0x66, 0x73, 0x6a, 0, 1, 0, 0, 0, 0, 0, 0, 0, 0, 0, 0, 0, 0, 0, 0, 0, 0,
    2, 0, 0, 0, 0, 0, 0,
];

/// The program, `mov64 r0, 0; exit`.
const STORED_PROGRAM: [u8; 16] = [0xb7, 0, 0, 0, 0, 0, 0, 0, 0x95, 0, 0, 0, 0, 0, 0, 0];

/// What the run is asked, `--sectors 1 --bound 0 --checked 2`.
const STORED_SETTINGS: Settings = Settings {
    sectors: 1,
    bound: 0,
    checked: Some(2),
    ..Settings::USUAL
};

/// The log and the program that the product holds itself.
pub(crate) fn stored_files(alloc: Global) -> Result<Files, AllocError>
    ensures log { IfOk result (λ files. files.0.items ≡ stored_log) }
    ensures programs { IfOk result (λ files. map (λ f. f.items) files.1.items ≡ stored_programs) }
{
    let mut log = STORED_SUPER.to_vec(alloc)?;
    log.resize(512, 0)?;
    let mut programs = Vec::new(alloc);
    programs.push(STORED_PROGRAM.to_vec(alloc)?)?;
    Ok((log, programs))
}

/// The options of the stored run, which no check refuses.
#[tactic(auto, unfolding(request::specs::Settings::option_checks))]
pub(crate) fn stored_options() -> Options
    ensures { result ≡ stored_settings }
{
    match Options::new(&STORED_SETTINGS) {
        Ok(options) => options,
        Err(_refusal) => unreachable!(),
    }
}
