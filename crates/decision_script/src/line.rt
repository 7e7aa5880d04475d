//! The meaning of one line.
ghost use Rattle.std.specs.Prelude.{◌≡◌, ◌≢◌, Ok, Err, map, IfOk, MatchResult};
ghost use Rattle.sim_base.specs.Names.{is_name};
ghost use Rattle.decision_script.specs.Lines.{words, is_blank, is_ascii};
ghost use Rattle.decision_script.specs.Sentences.{change_of, param_of, section, look, fork, end, set, one_value};
ghost use Rattle.decision_script.specs.Sentences.{two_values, after_analyst, after_look, after_fork, after_end};
ghost use Rattle.decision_script.specs.Sentences.{after_set, sentence, begins_comment, saying, line_saying, where_form};

use crate::fault::LineFault;
use crate::item::Act;
use crate::number::read_number;
use sim_base::{Change, Decision, Name, Param};
use std::alloc::{AllocError, Global};

/// The meaning of a line.
#[derive(Clone, Copy, Debug, PartialEq, Eq)]
pub(crate) enum ParsedLine {
    /// It is empty, or a comment.
    Nothing,
    /// The lines from here on are those of the analyst with this name.
    Section(Name),
    /// It is a decision or a look.
    Action(Act),
}

/// The name that a word spells.
pub fn read_name(word: &[u8]) -> Result<Name, LineFault>
    ensures value { result ≡ where_form (is_name word.now) (Ok word.now) }
{
    match Name::read(word) {
        Some(name) => Ok(name),
        None => Err(LineFault::BadLine),
    }
}

/// The parameter with this keyword, if it takes this number of values.
pub fn read_param(word: &[u8], count: usize) -> Result<Param, LineFault>
    ensures value { result ≡ param_of word.now count }
{
    match Param::of_word(word) {
        Some(param) if param.values() as usize == count => Ok(param),
        _ => Err(LineFault::BadLine),
    }
}

#[tactic(auto, unfolding(crate::specs::Sentences::one_value))]
fn one_value_change(param: Param, a: &[u8]) -> Result<Change, LineFault>
    ensures value { result ≡ one_value param a.now }
{
    let a = read_number(a)?;
    Ok(Change { param, a, b: 0 })
}

#[tactic(auto, unfolding(crate::specs::Sentences::two_values))]
fn two_value_change(param: Param, a: &[u8], b: &[u8]) -> Result<Change, LineFault>
    ensures value { result ≡ two_values param a.now b.now }
{
    let a = read_number(a)?;
    let b = read_number(b)?;
    Ok(Change { param, a, b })
}

/// The change of a parameter to the values of the words.
pub fn read_change(param: Param, values: &[&[u8]]) -> Result<Change, LineFault>
    ensures value { result ≡ change_of param (map (λ w. w.now) values.now) }
{
    match values {
        [a] => one_value_change(param, a),
        [a, b] => two_value_change(param, a, b),
        _ => Err(LineFault::BadLine),
    }
}

#[tactic(auto, unfolding(crate::specs::Sentences::section))]
fn section_line(word: &[u8]) -> Result<ParsedLine, LineFault>
    ensures value { result ≡ section word.now }
{
    Ok(ParsedLine::Section(read_name(word)?))
}

#[tactic(auto, unfolding(crate::specs::Sentences::look))]
fn look_line(who: &[u8], station: &[u8]) -> Result<ParsedLine, LineFault>
    ensures value { result ≡ look who.now station.now }
{
    let who = read_name(who)?;
    let station = read_name(station)?;
    Ok(ParsedLine::Action(Act::Look { who, station }))
}

#[tactic(auto, unfolding(crate::specs::Sentences::fork))]
fn fork_line(new: &[u8], keyword: &[u8], old: &[u8]) -> Result<ParsedLine, LineFault>
    ensures value { result ≡ fork new.now keyword.now old.now }
{
    if keyword != b"from".as_slice() {
        return Err(LineFault::BadLine);
    }
    let new = read_name(new)?;
    let old = read_name(old)?;
    Ok(ParsedLine::Action(Act::Decide(Decision::Fork { new, old })))
}

#[tactic(auto, unfolding(crate::specs::Sentences::end))]
fn end_line(who: &[u8], keyword: &[u8], time: &[u8]) -> Result<ParsedLine, LineFault>
    ensures value { result ≡ end who.now keyword.now time.now }
{
    if keyword != b"at".as_slice() {
        return Err(LineFault::BadLine);
    }
    let who = read_name(who)?;
    let at = read_number(time)?;
    Ok(ParsedLine::Action(Act::Decide(Decision::End { who, at })))
}

#[tactic(auto, unfolding(crate::specs::Sentences::set))]
fn set_line(
    who: &[u8],
    keyword: &[u8],
    time: &[u8],
    station: &[u8],
    word: &[u8],
    values: &[&[u8]],
) -> Result<ParsedLine, LineFault>
    ensures value { result ≡ set who.now keyword.now time.now station.now word.now (map (λ w. w.now) values.now) }
{
    if keyword != b"at".as_slice() {
        return Err(LineFault::BadLine);
    }
    let who = read_name(who)?;
    let station = read_name(station)?;
    let param = read_param(word, values.len())?;
    let at = read_number(time)?;
    let change = read_change(param, values)?;
    Ok(ParsedLine::Action(Act::Decide(Decision::Set {
        who,
        at,
        station,
        change,
    })))
}

fn analyst_words(words: &[&[u8]]) -> Result<ParsedLine, LineFault>
    ensures value { result ≡ after_analyst (map (λ w. w.now) words.now) }
{
    match words {
        [name] => section_line(name),
        _ => Err(LineFault::BadLine),
    }
}

fn look_words(words: &[&[u8]]) -> Result<ParsedLine, LineFault>
    ensures value { result ≡ after_look (map (λ w. w.now) words.now) }
{
    match words {
        [who, station] => look_line(who, station),
        _ => Err(LineFault::BadLine),
    }
}

fn fork_words(words: &[&[u8]]) -> Result<ParsedLine, LineFault>
    ensures value { result ≡ after_fork (map (λ w. w.now) words.now) }
{
    match words {
        [new, keyword, old] => fork_line(new, keyword, old),
        _ => Err(LineFault::BadLine),
    }
}

fn end_words(words: &[&[u8]]) -> Result<ParsedLine, LineFault>
    ensures value { result ≡ after_end (map (λ w. w.now) words.now) }
{
    match words {
        [who, keyword, time] => end_line(who, keyword, time),
        _ => Err(LineFault::BadLine),
    }
}

fn set_words(words: &[&[u8]]) -> Result<ParsedLine, LineFault>
    ensures value { result ≡ after_set (map (λ w. w.now) words.now) }
{
    match words {
        [who, keyword, time, station, word, values @ ..] => {
            set_line(who, keyword, time, station, word, values)
        }
        _ => Err(LineFault::BadLine),
    }
}

fn parse_command(verb: &[u8], rest: &[&[u8]]) -> Result<ParsedLine, LineFault>
    ensures value { result ≡ sentence verb.now (map (λ w. w.now) rest.now) }
{
    if verb == b"analyst".as_slice() {
        analyst_words(rest)
    } else if verb == b"fork".as_slice() {
        fork_words(rest)
    } else if verb == b"set".as_slice() {
        set_words(rest)
    } else if verb == b"end".as_slice() {
        end_words(rest)
    } else if verb == b"look".as_slice() {
        look_words(rest)
    } else {
        Err(LineFault::BadLine)
    }
}

/// Whether a line with this first word is a comment.
pub fn is_comment(word: &[u8]) -> bool
    ensures value { result ≡ begins_comment word.now }
{
    match word {
        [first, ..] => *first == b'#',
        [] => false,
    }
}

fn parse_words(words: &[&[u8]]) -> Result<ParsedLine, LineFault>
    ensures value { result ≡ saying (map (λ w. w.now) words.now) }
{
    match words {
        [] => Ok(ParsedLine::Nothing),
        [verb, rest @ ..] => {
            if is_comment(verb) {
                Ok(ParsedLine::Nothing)
            } else {
                parse_command(verb, rest)
            }
        }
    }
}

/// Whether all bytes of a line are below 128.
pub fn is_ascii_line(line: &[u8]) -> bool
    ensures value { result ≡ is_ascii line.now }
{
    line.iter().all(|b| *b < 128)
}

fn is_blank_byte(byte: u8) -> bool
    ensures value { result ≡ is_blank byte }
{
    byte == b' ' || byte == b'\t'
}

/// The words of a line: its parts between blanks, which are spaces and tabs.
pub fn words_of(alloc: Global, line: &[u8]) -> Result<Vec<&[u8]>, AllocError>
    ensures value { IfOk result (λ v. map (λ w. w.now) v.items ≡ words line.now) }
{
    line.split(|b| is_blank_byte(*b))
        .filter(|word| !word.is_empty())
        .collect(alloc)
}

/// The meaning of a line.
pub(crate) fn parse_line(alloc: Global, line: &[u8]) -> Result<ParsedLine, LineFault>
    ensures value { MatchResult result (λ s. line_saying line.now ≡ Ok s)
        (λ e. e ≢ LineFault.NoMemory → line_saying line.now ≡ Err e) }
{
    if !is_ascii_line(line) {
        return Err(LineFault::NotAscii);
    }
    match words_of(alloc, line) {
        Ok(words) => parse_words(words.as_slice()),
        Err(_) => Err(LineFault::NoMemory),
    }
}
