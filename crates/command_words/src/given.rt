//! The values on a command line.
ghost use Rattle.std.specs.Prelude.{◌≡◌, ◌↔◌, IfOk, IsTrue, true, option_map, option_and_then};
ghost use Rattle.std.specs.List.{list_all};
ghost use Rattle.std.specs.Str.{is_utf8};
ghost use Rattle.clap.specs.Words.{kind_of};
ghost use Rattle.command_words.specs.Clap.{up_to_four};
ghost use Rattle.command_words.specs.Requests.{form, form_of};
ghost use Rattle.command_words.specs.Rules.{values};
ghost use Rattle.command_words.specs.Views.{given_view};

use crate::command::command;
use clap::Error;
use clap::error::ErrorKind;
use sim_outer::Word;
use std::alloc::{AllocError, Global};

/// The values of the options and the positionals.
#[derive(Drop)]
pub(crate) struct Given<'a> {
    pub(crate) mode: Option<&'a str>,
    pub(crate) first: Option<&'a str>,
    pub(crate) second: Option<&'a str>,
    pub(crate) third: Option<&'a str>,
    pub(crate) workers: Option<&'a str>,
    pub(crate) clone: Option<&'a str>,
    pub(crate) until: Option<&'a str>,
}

// Whether the library ran out of memory.
fn is_memory(error: &Error) -> bool
    ensures value { IsTrue result ↔ (kind_of error.now ≡ ErrorKind.OutOfMemory) }
{
    error.kind() == ErrorKind::OutOfMemory
}

// Recalls that a word is a text: its bytes are UTF-8.
fn recall_text(word: &Word)
    ensures text { is_utf8 word.now ≡ true }
{
    let _bytes = word.text().as_bytes();
}

// Recalls this for all words; it has no other effect.
fn recall_texts(words: &[Word])
    ensures texts { list_all is_utf8 words.now ≡ true }
{
    for word in words {
        recall_text(word);
    }
}

/// The values of the words, None if they break a rule or there are more than four positionals.
pub(crate) fn given_words<'a>(
    alloc: Global,
    words: &'a [Word],
) -> Result<Option<Given<'a>>, AllocError>
    // the library finds the values of the rules
    ensures value { IfOk result (λ g. option_map given_view g ≡ option_and_then up_to_four
        (values words.entry.now)) }

    // the values lead to the same request as the words
    ensures asks { IfOk result (λ g. option_and_then (λ v. form_of (given_view v)) g ≡ form words.entry.now) }
{
    recall_texts(words);
    let matches = match command(alloc)?.try_get_matches_from(words) {
        Ok(matches) => matches,
        Err(error) => {
            if is_memory(&error) {
                return Err(AllocError);
            }
            return Ok(None);
        }
    };
    Ok(Some(Given {
        mode: matches.get_str("mode"),
        first: matches.get_str("first"),
        second: matches.get_str("second"),
        third: matches.get_str("third"),
        workers: matches.get_str("workers"),
        clone: matches.get_str("clone"),
        until: matches.get_str("until"),
    }))
}
