//! Laws of the texts of choices, and of how a run is laid out in parts. The functions do nothing; each contract is a theorem.

ghost use Rattle.inspect.specs.CutParts.{CutPartsAreRun};
ghost use Rattle.inspect.specs.Layout.{PartsAreEven};
ghost use Rattle.inspect.specs.Which.{ChoicesAreShort, PrintsChoices};

/// The report prints of a choice what `show` prints of it: the same bytes.
#[tactic(auto, using(crate::proofs::Printed::prints_choices))]
pub fn report_prints_choices()
    ensures { PrintsChoices }
{}

/// No choice of a plan has a text of more than 96 bytes, so none is missed where a longer text means none.
#[tactic(auto, using(crate::proofs::Short::choices_are_short))]
pub fn choices_are_short()
    ensures { ChoicesAreShort }
{}

/// The parts in which a run is laid out have each of its images once, in their order, and each can be asked for.
#[tactic(auto, using(crate::proofs::EvenParts::parts_are_even))]
pub fn parts_are_even()
    ensures { PartsAreEven }
{}

/// The parts in which a run of any number of losses is laid out look for cases at its cuts, each cut is of one part, and each part has
/// one, if there is one. They follow one another.
#[tactic(auto)]
pub fn cut_parts_are_run()
    ensures { CutPartsAreRun }
{}
