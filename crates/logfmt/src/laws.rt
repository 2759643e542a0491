//! Laws of the texts of logs. The functions do nothing; each contract is a theorem.

ghost use Rattle.logfmt.specs.Laws.{TextOfOneLog, CanonicalIsText, CanonicalReadsBack, TextHasNoFault, OneFault};

/// For one device size a text is the log text of at most one log.
pub fn text_of_one_log()
    ensures { TextOfOneLog }
{}

/// The canonical text of a log is a log text of it.
pub fn canonical_is_text()
    ensures { CanonicalIsText }
{}

/// Reading what was written of a log gives that log.
pub fn canonical_reads_back()
    ensures { CanonicalReadsBack }
{}

/// A log text is never refused for a fault: apart from want of memory, `read` refuses exactly what
/// is no log text.
pub fn text_has_no_fault()
    ensures { TextHasNoFault }
{}

/// For one device size and the same limits bytes have at most one first fault: `read` is left no choice of the cause and
/// the entry that it names.
pub fn one_fault()
    ensures { OneFault }
{}
