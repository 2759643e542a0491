//! What the verifier says of a program by itself.

ghost use Rattle.std.specs.Prelude.{◌≡◌, ◌++◌, IfOk, IfErr, OnOk, codes, length, string_bytes, if◌then◌else◌, []};
ghost use Rattle.inspect.specs.Verifying.{accepted_text, guarded_text, slots_text, guards_text, verified_text, unaccepted_refusal, IsAcceptedText, RefusesVerified, FindsUnreached};

use base::refusal::{Cause, Refusal};
use bpf_isa::codec::decode;
use bpf_isa::program::Program;
use bpf_shape::Fault;
use notes::put_slot;
use request::{Options, bytes_refusal_of};
use std::alloc::{AllocError, Global};
use verifier::{Unreached, Verified, guarded_slots, unreached_of, verify_with};

/// What is said of an accepted program, and what no run reaches of it.
#[derive(Drop)]
pub struct VerifiedReport {
    pub text: Vec<u8>,
    pub unreached: Option<Unreached>,
}

/// The refusal of a program that the verifier does not accept.
pub(crate) fn unaccepted_refusal_of(fault: Fault) -> Refusal
    ensures { result ≡ unaccepted_refusal fault.code fault.slot }
{
    Refusal {
        code: Cause::Verifier(fault.code),
        at: fault.slot,
        program: None,
    }
}

/// Appends the line of a program that is accepted without guards.
#[tactic(auto, unfolding(crate::specs::Verifying::accepted_text))]
fn put_accepted(out: &mut String, budget: u64) -> Result<(), AllocError>
    ensures { OnOk result (string_bytes out.new ≡ string_bytes out.old ++ accepted_text budget) }
{
    write!(out, "accepted budget {budget}\n")
}

/// Appends the line of a program that is accepted with guards, that many of its slots guarded.
#[tactic(auto, unfolding(crate::specs::Verifying::guarded_text))]
fn put_guarded(out: &mut String, budget: u64, count: usize) -> Result<(), AllocError>
    ensures { OnOk result (string_bytes out.new ≡ string_bytes out.old ++ guarded_text budget count) }
{
    write!(out, "accepted budget {budget} guards {count}\n")
}

/// Appends the lines of these slots of a program.
fn put_slots(out: &mut String, program: &Program, slots: &[usize]) -> Result<(), AllocError>
    ensures { OnOk result (string_bytes out.new ≡ string_bytes out.old ++ slots_text program.now slots.now) }
{
    for slot in slots {
        put_slot(out, *slot, program.at(*slot))?;
    }
    Ok(())
}

/// Appends what is said of a program that is accepted with guards, these slots of it guarded.
fn put_guards(
    out: &mut String,
    verified: &Verified<'_>,
    slots: &[usize],
    listed: bool,
) -> Result<(), AllocError>
    ensures { OnOk result (string_bytes out.new ≡ string_bytes out.old ++ guards_text listed verified.now.program verified.now.budget slots.now) }
{
    put_guarded(out, verified.budget(), slots.len())?;
    if listed {
        put_slots(out, verified.program(), slots)
    } else {
        Ok(())
    }
}

/// What is said of an accepted program: its budget, and with guards its guarded slots.
fn verified_line(alloc: Global, verified: &Verified<'_>, listed: bool) -> Result<String, AllocError>
    ensures { IfOk result (λ text. string_bytes text ≡ verified_text listed verified.now) }
{
    let mut out = String::new(alloc);
    if verified.has_guards() {
        let slots = guarded_slots(alloc, verified)?;
        put_guards(&mut out, verified, slots.as_slice(), listed)?;
    } else {
        put_accepted(&mut out, verified.budget())?;
    }
    Ok(out)
}

/// The budget with which the verifier accepts the program that bytes spell, for a device of that many
/// sectors (docs/VERIFIER.md). With guards it is how many of its slots are guarded, too, and where they are listed, each
/// with its instruction. Beside it stands what no run reaches of the program.
///
/// # Errors
///
/// The first fault of the bytes, then why the verifier refuses the program, each at its slot; or want of
/// memory.
pub fn verify_program(
    alloc: Global,
    bytes: &[u8],
    options: &Options,
    listed: bool,
) -> Result<VerifiedReport, Refusal>
    ensures accepted { IfOk result (λ report. IsAcceptedText bytes.now options.now listed report.text.items) }
    ensures refused { IfErr result (RefusesVerified bytes.now options.now) }
    ensures unreached { IfOk result (λ report. FindsUnreached bytes.now options.now.sectors report.unreached) }
{
    let program = match decode(alloc, bytes) {
        Ok(program) => program,
        Err(fault) => return Err(bytes_refusal_of(fault)),
    };
    let verified = match verify_with(alloc, &program, options.sectors(), options.guards()) {
        Ok(verified) => verified,
        Err(unaccepted) => return Err(unaccepted_refusal_of(unaccepted.fault)),
    };
    match verified_line(alloc, &verified, listed) {
        Ok(text) => Ok(VerifiedReport {
            text: text.into_bytes(),
            unreached: unreached_of(&verified),
        }),
        Err(_error) => Err(Refusal::of_memory()),
    }
}
