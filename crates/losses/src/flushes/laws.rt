//! Laws of windows and of the flushes that are picked for them. The functions do nothing; each contract is a theorem.

ghost use Rattle.losses.specs.WindowLaws.{FlushTakesAway, SameIsLeft, NothingElseIsLost, FlushesWriteNothing, CutsStay, FlushesElsewhereLeave, NoFlushHelps, PlacesAreFewest, EachIsCountedOnce};

/// A flush in the window of an image takes it away, and with it the image right after the window where the same departs.
pub fn flush_takes_away()
    ensures { FlushTakesAway }
{}

/// Right after the window the departures up to its end leave the same device as all departures do at the cut, after as many
/// marks and in the same epoch.
pub fn same_is_left()
    ensures { SameIsLeft }
{}

/// An image without a window is that of the cut right after the first entry of which something departs, where nothing else
/// departs.
pub fn nothing_else_is_lost()
    ensures { NothingElseIsLost }
{}

/// Added flushes change no device and no number of marks.
pub fn flushes_write_nothing()
    ensures { FlushesWriteNothing }
{}

/// A cut that is explored is explored with added flushes too.
pub fn cuts_stay()
    ensures { CutsStay }
{}

/// Flushes outside of the window, however many, leave what departs up to its end.
pub fn flushes_elsewhere_leave()
    ensures { FlushesElsewhereLeave }
{}

/// No flushes, however many, take away an image without a window and its like at an earlier cut.
pub fn no_flush_helps()
    ensures { NoFlushHelps }
{}

/// No fewer places have one in each window.
pub fn places_are_fewest()
    ensures { PlacesAreFewest }
{}

/// The counts of the flushes add up to the number of windows.
pub fn each_is_counted_once()
    ensures { EachIsCountedOnce }
{}
