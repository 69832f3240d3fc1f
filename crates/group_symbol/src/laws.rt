//! Laws of the texts of symbols.
ghost use Rattle.group_symbol.specs.Laws.{WrittenTextSpells, WrittenTextReadsBack};

/// The text that is written for a symbol spells it.
pub fn written_text_spells()
    ensures { WrittenTextSpells }
{}

/// The text that is written for a symbol is read as the symbol.
pub fn written_text_reads_back()
    ensures { WrittenTextReadsBack }
{}
