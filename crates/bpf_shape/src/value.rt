//! What is known of a program of right shape.

ghost use Rattle.std.specs.Prelude.{◌≡◌, get_or, false};

use std::marker::Model;

/// The shape of a program: its budget and its heads.
#[derive(Drop)]
pub struct Shape {
    budget: u64,
    heads: Vec<bool>,
}

impl Model for Shape {
    ghost use Rattle.bpf_shape.specs.Shape.{ShapeValue};

    ghost Value = { ShapeValue };

    ghost view = { λ s. record { budget = s.budget; heads = s.heads.items } };
}

impl Shape {
    /// The shape with that budget, and for each slot whether an again edge leads to it.
    pub(crate) fn new(budget: u64, heads: Vec<bool>) -> Shape
        ensures { result ≡ record { budget = budget; heads = heads.items } }
    {
        Shape { budget, heads }
    }

    /// How many steps a run of the program takes at most.
    pub fn budget(&self) -> u64
        ensures { result ≡ self.now.budget }
    {
        self.budget
    }

    /// Whether an again edge leads to a slot.
    pub fn is_head(&self, slot: usize) -> bool
        ensures { result ≡ get_or self.now.heads slot false }
    {
        slot < self.heads.len() && self.heads[slot]
    }
}
