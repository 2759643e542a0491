//! What holds of the bytes that are read of a log or a raw log, and of those that stand for a long program. The functions do nothing;
//! each contract is a theorem.

ghost use Rattle.input_files.specs.Contents.{ShortIsKeptWhole, LongIsNeverRun};
ghost use Rattle.input_files.specs.Logs.{ShortLogIsRead, LongLogIsRefusedAlike};
ghost use Rattle.input_files.specs.PartTexts.{PartIsReadAlike};
ghost use Rattle.input_files.specs.RawLogs.{RawIsImportedAlike, RawIsRefusedAlike, NoMoreIsRead, ReadRawIsShort};
ghost use Rattle.input_files.specs.Sized.{BaseIsReadAlike};
ghost use Rattle.input_files.specs.Standing.{ShortStandsForItself, LongIsRefusedAlike, LongIsRefused};

/// A log that has no more bytes than the limits allow is read whole.
pub fn short_log_is_read()
    ensures { ShortLogIsRead }
{}

/// A longer one is refused for its length, and so is what is read of it.
pub fn long_log_is_refused_alike()
    ensures { LongLogIsRefusedAlike }
{}

/// Where not all is read of the text of a part that may be, it is neither the text of a part nor that of cases, and what is read is neither.
pub fn part_is_read_alike()
    ensures { PartIsReadAlike }
{}

/// What a device held is read whole where its file says its size, as it is for a device of that size.
pub fn base_is_read_alike()
    ensures { BaseIsReadAlike }
{}

/// What is imported of the bytes that are read of a raw log is imported of the raw log.
pub fn raw_is_imported_alike()
    ensures { RawIsImportedAlike }
{}

/// Each first fault of the bytes that are read of a raw log is the first fault of the raw log.
pub fn raw_is_refused_alike()
    ensures { RawIsRefusedAlike }
{}

/// A raw log that can be imported is read no further than its entries need.
pub fn no_more_is_read()
    ensures { NoMoreIsRead }
{}

/// No more of a file is read as a raw log than the limit: 192 MiB, with `--large` 1 GiB.
pub fn read_raw_is_short()
    ensures { ReadRawIsShort }
{}

/// A program of at most 4,096 slots stands for itself.
pub fn short_stands_for_itself()
    ensures { ShortStandsForItself }
{}

/// Each fault of what stands for a longer one is the first fault of that one too, at the place that `refusal_of_whole` makes
/// of it.
pub fn long_is_refused_alike()
    ensures { LongIsRefusedAlike }
{}

/// What stands for a longer one has a fault.
pub fn long_is_refused()
    ensures { LongIsRefused }
{}

/// A program of at most 4,096 slots is kept whole, whatever its file is said to have.
pub fn short_is_kept_whole()
    ensures { ShortIsKeptWhole }
{}

/// What is kept of a longer one has a fault, whatever its file is said to have.
pub fn long_is_never_run()
    ensures { LongIsNeverRun }
{}
