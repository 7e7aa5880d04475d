//! Laws of the command line: `clap` finds the values that the rules define, and `gen` writes the report only.
//!
//! The contract of each function is a law; there is nothing to run.
ghost use Rattle.command_words.specs.Clap.{ClapFindsTheValues};
ghost use Rattle.command_words.specs.Requests.{MadeIsReported};

/// In each list of texts, `clap` finds the values that the rules define, word by word. It refuses more than four
/// positionals, and no form has more.
pub fn clap_finds_the_values()
    ensures { ClapFindsTheValues }
{}

/// A study that is generated from a number writes the report only.
pub fn made_is_reported()
    ensures { MadeIsReported }
{}
