//! A law of runs. Nothing here is called.

ghost use Rattle.plain.specs.Laws.{GuardsChangeNothing};

/// A run that ends in a verdict, and with guards in one too, ends in the same with them, and has the same footprint.
pub fn guards_change_nothing()
    ensures { GuardsChangeNothing }
{}
