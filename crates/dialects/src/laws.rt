//! Laws of the words that name a symbol.
ghost use Rattle.dialects.specs.Laws.{OneSymbol, OneLongText, WrittenNamesSymbol, NameNamesFirst, OneReading, LongOperatorsAreElements};

/// No word names two symbols.
pub fn one_symbol()
    ensures { OneSymbol }
{}

/// A symbol has one long text.
pub fn one_long_text()
    ensures { OneLongText }
{}

/// The short text and the long text of an accepted symbol name it.
pub fn written_names_symbol()
    ensures { WrittenNamesSymbol }
{}

/// The name of a class names the symbol of its first parent.
pub fn name_names_first()
    ensures { NameNamesFirst }
{}

/// At most one answer to a word is right, want of memory apart.
pub fn one_reading()
    ensures { OneReading }
{}

/// Each operator of a long text, with its prime, is an element of the symbol's group.
pub fn long_operators_are_elements()
    ensures { LongOperatorsAreElements }
{}
