//! A law of the texts of numbers.
ghost use Rattle.number_words.specs.Laws.{OneNumber};

/// No text stands for two numbers.
pub fn one_number()
    ensures { OneNumber }
{}
