//! Worked examples, computed by the checker from the rules of the command line.
//!
//! The lines and their requests are in `specs/Examples.antt`. The contract of each function is a theorem; there is
//! nothing to run.
ghost use Rattle.command_words.specs.Examples.{AreRight, dashes, modes, numbers, option_names, option_places};
ghost use Rattle.command_words.specs.Examples.{option_values, options_of_modes, positionals};

/// The nine modes, and words that are no mode.
pub fn the_modes()
    ensures { AreRight modes }
{}

/// An option's value is the next word, or part of the same word.
pub fn values_of_options()
    ensures { AreRight option_values }
{}

/// Options may be anywhere before `--`.
pub fn places_of_options()
    ensures { AreRight option_places }
{}

/// Each option may occur once, with its whole name. There are no other options.
pub fn names_of_options()
    ensures { AreRight option_names }
{}

/// After `--` each word is a positional. Before it a positional does not begin with a dash, unless it is a single dash.
pub fn words_with_dashes()
    ensures { AreRight dashes }
{}

/// The number of positionals is exact, and none is empty.
pub fn number_of_positionals()
    ensures { AreRight positionals }
{}

/// Each mode has its options.
pub fn options_by_mode()
    ensures { AreRight options_of_modes }
{}

/// Workers are 1 to 16, numbers 1 to 999999 and times 0 to 4294967295, in decimal without a leading zero or sign.
pub fn numbers_in_words()
    ensures { AreRight numbers }
{}
