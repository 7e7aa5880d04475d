//! The words of entries: their keys in 64 bits, without a place.
ghost use Rattle.std.specs.Prelude.{◌≡◌, ◌<◌, ◌≤◌, length, drop};
ghost use Rattle.sim_base.specs.declared.message.TheConstants.{WORD_TIMES};
ghost use Rattle.run_laws.specs.Beginnings.{from};
ghost use Rattle.trace_writer.specs.Words.{HasWordAt, IsInOrder, entry_word, first_word};

use log_chain::{Log, Walk};
use sim_base::message::WORDS_OF_TIME;

/// The least word of a time: the words of earlier entries are less, those of others are not.
pub fn first_word(time: u64) -> u64
    requires fits { time < WORD_TIMES }
    ensures value { result ≡ first_word time }
{
    time * WORDS_OF_TIME
}

/// A walk over the entries of a log from a word on.
pub fn walk_from_word(log: &Log, word: u64) -> Walk<'_>
    requires order { IsInOrder log.now }
    ensures value { result ≡ from entry_word word log.now }
{
    log.walk_from(place_of_word(log, word))
}

/// The number of entries before a word, found by binary search.
pub fn place_of_word(log: &Log, word: u64) -> u64
    requires order { IsInOrder log.now }
    ensures within { result ≤ length log.now }
    ensures value { drop result log.now ≡ from entry_word word log.now }
{
    let mut low = 0;
    let mut high = log.len();
    while low < high {
        let middle = low + (high - low) / 2;
        if word_at(log, middle) < word {
            low = middle + 1;
        } else {
            high = middle;
        }
    }
    low
}

/// The word of the entry at a place.
pub fn word_at(log: &Log, place: u64) -> u64
    requires order { IsInOrder log.now }
    requires in_range { place < length log.now }
    ensures value { HasWordAt result place log.now }
{
    match log.walk_from(place).key() {
        Some(key) => key.word(0),
        None => unreachable!(),
    }
}
