//! Laws of the words that the program is called with.

ghost use Rattle.grid_shell.specs.WordTable.{OrderIsFree, WordsAreOfTheTable};

/// A law: the words ask for something exactly where they are the first words of a run, and then
/// options that it takes, each at most once and with a value that its word spells, as two words or
/// as one with `=` between; and then they ask for what these say.
pub fn words_are_those_of_the_table()
    ensures { WordsAreOfTheTable }
{}

/// A law: the order in which options are given doesn't matter.
pub fn the_order_of_options_is_free()
    ensures { OrderIsFree }
{}
