//! Where a flush would take failing images away, and the fewest flushes that would take away all against which a flush helps.
//!
//! A failing image is a cut and a choice. A flush between the first entry of which something departs and the last entry of
//! which something arrived forbids it: these places are its window. Where nothing departs, or nothing arrived after that first
//! entry, there is no window and no flush helps. The same device is left, whatever flushes are added, by the cut right after
//! the entry, where nothing else departs. Where nothing of the entry arrived, the cut before it leaves it too.
//!
//! # How it is written
//!
//! After the first departure entries are looked at from the cut back. At most three parts depart, so few writes are passed
//! over. Of the windows with one end only the one that begins last decides, so a table of the entries takes their place, and
//! one walk along it finds the places.
#![tactic(auto)]

mod counted;
mod laws;
mod places;
mod window;

pub use counted::{MissingFlush, missing_flushes};
pub use laws::{
    cuts_stay, each_is_counted_once, flush_takes_away, flushes_elsewhere_leave,
    flushes_write_nothing, no_flush_helps, nothing_else_is_lost, places_are_fewest, same_is_left,
};
pub use window::{Window, window_of};
