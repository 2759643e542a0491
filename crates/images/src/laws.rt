//! Laws of crash images. The functions do nothing; each contract is a theorem.

ghost use Rattle.images.specs.Covering.{CoveringTells, TouchingTells};
ghost use Rattle.images.specs.Laws.{LastWriterShows, FatesShow, EpochHasBase, KeysTell, EqualKeysAreSame, ImagesAreDevices};

/// A byte of a crash image is that of the last unit that writes it: a unit that is laid over others
/// shows its own byte where it reaches the device, and else what the others leave.
pub fn last_writer_shows()
    ensures { LastWriterShows }
{}

/// A unit that is laid over others replaces its sector where it is whole, changes nothing where it is
/// dropped, and where it is torn puts its head before the rest of what the others leave, or its tail
/// after the beginning of that.
pub fn fates_show()
    ensures { FatesShow }
{}

/// Cuts of one epoch have one base, and in epoch 0 it is what the device held before entry 0.
pub fn epoch_has_base()
    ensures { EpochHasBase }
{}

/// Two keys of one log are the same exactly where program, context and image are. So images of equal
/// bytes at cuts of different epochs, or after different numbers of marks, have different keys.
pub fn keys_tell()
    ensures { KeysTell }
{}

/// `==` of keys answers whether they are the same. So a map finds a key exactly where it has that key.
pub fn equal_keys_are_same()
    ensures { EqualKeysAreSame }
{}

/// A crash image of a log is a device of the log's size: each sector has 512 numbers below 256. The
/// numbers of its context are at most 65,536.
pub fn images_are_devices()
    ensures { ImagesAreDevices }
{}

/// What an image has in a sector hangs on those departures alone whose parts cover it.
pub fn covering_tells()
    ensures { CoveringTells }
{}

/// Two choices of a cut, of which one has the other's departures and more, leave the same bytes in each sector that no part
/// of a further departure covers.
pub fn touching_tells()
    ensures { TouchingTells }
{}
