//! The laws of the choices. The functions do nothing; each contract is a theorem.

ghost use Rattle.choices.specs.Laws.{ListIsSet, RankedIsModel, WaysAgree};

/// The ranked choices of a plan are exactly the pairs of a wanted cut and an admissible choice there, as
/// docs/CRASH-MODEL.md says them: each once, by cut, then by the number of departures, then departure
/// after departure by part and by fate: the drop, then the heads, rising, then the tails, rising.
pub fn ranked_is_model()
    ensures { RankedIsModel }
{}

/// Where no entry of a log has more than one sector, the choices by sector and those by write are the same, in the same
/// order, and so are their images.
pub fn ways_agree()
    ensures { WaysAgree }
{}

/// The list of choices by which those of a cut are numbered has each choice that
/// docs/CRASH-MODEL.md says, no other, each once, and in its order.
pub fn list_is_set()
    ensures { ListIsSet }
{}
