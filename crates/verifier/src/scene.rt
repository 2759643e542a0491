//! A program with its shape, the devices for which it is verified, and whether that is with guards.

ghost use Rattle.std.specs.Prelude.{◌≡◌, ◌<◌};
ghost use Rattle.bpf_shape.specs.Again.{heads};
ghost use Rattle.bpf_shape.specs.Rules.{IsShaped};

use bpf_isa::program::Program;
use bpf_shape::Shape;

/// A program with its shape, on devices of that many sectors, with guards or without.
#[derive(Clone, Copy)]
pub(crate) struct Scene<'x> {
    pub program: &'x Program,
    pub shape: &'x Shape,
    pub sectors: u32,
    pub guards: bool,
    pub ghost few: { sectors < 4294967296 },
    pub ghost rules: { IsShaped guards program.now },
    pub ghost heads_are: { shape.now.heads ≡ heads program.now },
}
