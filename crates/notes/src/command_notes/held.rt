//! What the files of a command hold, by which notes are found.

use request::facts::Recording;

/// What a file holds, where it could be read.
pub(crate) fn bytes_of(files: &[Option<Vec<u8>>], place: usize) -> Option<&[u8]> {
    match files.get(place) {
        Some(Some(bytes)) => Some(bytes.as_slice()),
        _ => None,
    }
}

/// The log that the first file holds. What notes say of it hangs on nothing that the device held before.
pub(crate) fn recording_of(files: &[Option<Vec<u8>>]) -> Option<Recording<'_>> {
    let log = bytes_of(files, 0)?;
    Some(Recording::of(log, &[]))
}
