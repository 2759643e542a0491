//! Laws of the text of `export`. The functions do nothing; each contract is a theorem.

ghost use Rattle.export.specs.Laws.{ExportsAreImages};

/// Whoever applies the records in their order has each image, to the byte.
pub fn exports_are_images()
    ensures { ExportsAreImages }
{}
