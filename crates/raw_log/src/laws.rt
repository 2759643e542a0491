//! Laws of raw logs. The functions do nothing; each contract is a theorem.

ghost use Rattle.raw_log.specs.Laws.{RawOfOneLog, LogIsRaw, RawIsLog, LogIsKept, ImportedIsText, OneImport, RawHasNoFault, ImportedHasNoFault, OneRawFault};

/// Bytes are a raw log of one size of sectors and of one list of entries.
pub fn raw_of_one_log()
    ensures { RawOfOneLog }
{}

/// A log is a raw log with sectors of 512 bytes, whose entries can be imported where they end within the limits
/// and have no more units.
pub fn log_is_raw()
    ensures { LogIsRaw }
{}

/// A raw log with sectors of 512 bytes whose entries can be imported is a log, if it isn't too long.
pub fn raw_is_log()
    ensures { RawIsLog }
{}

/// Importing a log with sectors of 512 bytes gives a text of the same log.
pub fn log_is_kept()
    ensures { LogIsKept }
{}

/// What is imported is read as the log of the raw log's entries.
pub fn imported_is_text()
    ensures { ImportedIsText }
{}

/// One text is imported of bytes.
pub fn one_import()
    ensures { OneImport }
{}

/// A raw log whose entries can be imported is never refused for a fault: apart from want of memory, `import` refuses exactly what
/// is none.
pub fn raw_has_no_fault()
    ensures { RawHasNoFault }
{}

/// Bytes of which a text is imported have no fault.
pub fn imported_has_no_fault()
    ensures { ImportedHasNoFault }
{}

/// For one device size bytes have at most one first fault: `import` is left no choice of the cause and the entry that it names.
pub fn one_raw_fault()
    ensures { OneRawFault }
{}
