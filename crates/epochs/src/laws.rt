//! Laws of the volatile parts and the wanted cuts. The functions do nothing; each contract is a theorem.

ghost use Rattle.epochs.specs.Laws.{VolatileIsSet, VolatileIsRun, UnitIsSector, CutsAreSet};

/// The volatile parts of a cut are those that docs/CRASH-MODEL.md says, no other, each once, by entry
/// and then by sector.
pub fn volatile_is_set()
    ensures { VolatileIsSet }
{}

/// The volatile parts of a cut are one run of the parts that are not forced.
pub fn volatile_is_run()
    ensures { VolatileIsRun }
{}

/// A unit has 512 bytes.
pub fn unit_is_sector()
    ensures { UnitIsSector }
{}

/// The wanted cuts of a log are those that docs/CRASH-MODEL.md says, no other, each once, rising.
pub fn cuts_are_set()
    ensures { CutsAreSet }
{}
