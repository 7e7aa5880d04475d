//! Reads one line of watches.
ghost use Rattle.std.specs.Prelude.{◌≡◌, ◌≢◌, Ok, Err, map, MatchResult};
ghost use Rattle.watch_points.specs.Sentences.{are_keywords as are_keywords_of, named_watch as named_watch_of};
ghost use Rattle.watch_points.specs.Sentences.{least_and_change as least_and_change_of};
ghost use Rattle.watch_points.specs.Sentences.{watch_of, sentence, saying, line_saying};

use crate::watch::Watch;
use decision_script::words::{
    LineFault, is_ascii_line, is_comment, read_change, read_name, read_number, read_param, words_of,
};
use sim_base::Change;
use std::alloc::Global;

// Whether these are the three keywords of a watch.
fn are_keywords(wait: &[u8], fork: &[u8], set: &[u8]) -> bool
    ensures value { result ≡ are_keywords_of wait.now fork.now set.now }
{
    wait == b"wait".as_slice() && fork == b"fork".as_slice() && set == b"set".as_slice()
}

// The number of a watch, and its change: a parameter and its values.
#[tactic(auto, unfolding(crate::specs::Sentences::least_and_change))]
fn least_and_change(least: &[u8], change: &[&[u8]]) -> Result<(u64, Change), LineFault>
    ensures value { result ≡ least_and_change_of least.now (map (λ w. w.now) change.now) }
{
    let [param, values @ ..] = change else {
        return Err(LineFault::BadLine);
    };
    let param = read_param(param, values.len())?;
    let least = read_number(least)?;
    let change = read_change(param, values)?;
    Ok((least, change))
}

// A watch, by its names, its number, and the words of its change.
#[tactic(auto, unfolding(crate::specs::Sentences::named_watch))]
fn named_watch(
    line: u32,
    who: &[u8],
    station: &[u8],
    least: &[u8],
    new: &[u8],
    target: &[u8],
    change: &[&[u8]],
) -> Result<Watch, LineFault>
    ensures value { result ≡ named_watch_of line who.now station.now least.now new.now target.now
        (map (λ w. w.now) change.now) }
{
    let who = read_name(who)?;
    let station = read_name(station)?;
    let new = read_name(new)?;
    let target = read_name(target)?;
    let (least, change) = least_and_change(least, change)?;
    Ok(Watch {
        line,
        who,
        station,
        least,
        new,
        target,
        change,
    })
}

// CLONE STATION wait K fork NEW set TARGET PARAMETER VALUES
fn watch_of_words(line: u32, words: &[&[u8]]) -> Result<Watch, LineFault>
    ensures value { result ≡ watch_of line (map (λ w. w.now) words.now) }
{
    match words {
        [
            who,
            station,
            wait,
            least,
            fork,
            new,
            set,
            target,
            change @ ..,
        ] => {
            if are_keywords(wait, fork, set) {
                named_watch(line, who, station, least, new, target, change)
            } else {
                Err(LineFault::BadLine)
            }
        }
        _ => Err(LineFault::BadLine),
    }
}

// What a line says, by its first word and the words after it.
fn parse_command(line: u32, verb: &[u8], rest: &[&[u8]]) -> Result<Option<Watch>, LineFault>
    ensures value { result ≡ sentence line verb.now (map (λ w. w.now) rest.now) }
{
    if verb != b"watch".as_slice() {
        return Err(LineFault::BadLine);
    }
    let watch = watch_of_words(line, rest)?;
    Ok(Some(watch))
}

// What a line of these words says.
fn parse_words(line: u32, words: &[&[u8]]) -> Result<Option<Watch>, LineFault>
    ensures value { result ≡ saying line (map (λ w. w.now) words.now) }
{
    match words {
        [] => Ok(None),
        [verb, rest @ ..] => {
            if is_comment(verb) {
                Ok(None)
            } else {
                parse_command(line, verb, rest)
            }
        }
    }
}

/// What the line of this number says: a watch, or nothing.
pub(crate) fn parse_line(alloc: Global, line: u32, text: &[u8]) -> Result<Option<Watch>, LineFault>
    ensures value { MatchResult result (λ s. line_saying line text.now ≡ Ok s)
        (λ e. e ≢ LineFault.NoMemory → line_saying line text.now ≡ Err e) }
{
    if !is_ascii_line(text) {
        return Err(LineFault::NotAscii);
    }
    match words_of(alloc, text) {
        Ok(words) => parse_words(line, words.as_slice()),
        Err(_) => Err(LineFault::NoMemory),
    }
}
