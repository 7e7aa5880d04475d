//! Reads a command line: from its words to a request.
ghost use Rattle.std.specs.Prelude.{◌≡◌, ◌⊎◌, ◌≤◌, IfOk, IfSome, None, Err, option_map};
ghost use Rattle.command_words.specs.Requests.{clone_alone as clone_alone_of, form, form_of, form_of_one};
ghost use Rattle.command_words.specs.Requests.{form_of_three, form_of_two, gen_form, is_text as is_text_of};
ghost use Rattle.command_words.specs.Requests.{live_form, none_given as none_given_of, request_view, resume_form};
ghost use Rattle.command_words.specs.Requests.{save_form, saving as saving_of, solo_form, study_form, watch_form};
ghost use Rattle.command_words.specs.Requests.{workers_alone as workers_alone_of, workers_of as workers_in};
ghost use Rattle.command_words.specs.Views.{given_view};

use crate::given::{Given, given_words};
use crate::number::number_in;
use crate::request::{
    Assignment, MAX_STUDY, MAX_UNTIL, MAX_WORKERS, Mode, Request, Source, WordsFault,
};
use sim_base::Name;
use sim_outer::Word;
use std::alloc::{AllocError, Global};

// Whether a word is not empty.
fn is_text(text: &str) -> bool
    ensures value { result ≡ is_text_of text.now }
{
    match text.as_bytes() {
        [] => false,
        [_, ..] => true,
    }
}

// The number of workers in an option; 1 without it.
fn workers_of(word: Option<&str>) -> Option<u32>
    ensures value { result ≡ workers_in (option_map (λ s. s.now) word.entry) }
    ensures at_least { IfSome result (λ n. 1 ≤ n) }
    ensures at_most { IfSome result (λ n. n ≤ MAX_WORKERS) }
{
    match word {
        None => Some(1),
        Some(word) => number_in(1, MAX_WORKERS, word.as_bytes()),
    }
}

// The number of workers, if there is no other option.
fn workers_alone(given: &Given) -> Option<u32>
    ensures value { result ≡ workers_alone_of (given_view given.now).workers (given_view given.now).clone
        (given_view given.now).until }
    ensures at_least { IfSome result (λ n. 1 ≤ n) }
    ensures at_most { IfSome result (λ n. n ≤ MAX_WORKERS) }
{
    match (given.clone, given.until) {
        (None, None) => workers_of(given.workers),
        _ => None,
    }
}

// The name of the clone, if there is no other option.
fn clone_alone(given: &Given) -> Option<Name>
    ensures value { result ≡ clone_alone_of (given_view given.now).workers (given_view given.now).clone
        (given_view given.now).until }
{
    match (given.workers, given.clone, given.until) {
        (None, Some(clone), None) => Name::read(clone.as_bytes()),
        _ => None,
    }
}

// The clone to save and the time, if there is no other option.
fn saving(given: &Given) -> Option<Mode>
    ensures value { result ≡ saving_of (given_view given.now).workers (given_view given.now).clone
        (given_view given.now).until }
{
    match (given.workers, given.clone, given.until) {
        (None, Some(clone), Some(until)) => {
            let name = Name::read(clone.as_bytes())?;
            let until = number_in(0, MAX_UNTIL, until.as_bytes())?;
            Some(Mode::Save { clone: name, until })
        }
        _ => None,
    }
}

// Whether there is no option.
fn none_given(given: &Given) -> bool
    ensures value { result ≡ none_given_of (given_view given.now).workers (given_view given.now).clone
        (given_view given.now).until }
{
    match (given.workers, given.clone, given.until) {
        (None, None, None) => true,
        _ => false,
    }
}

// `run MODEL SCRIPT [--workers N]`, and the same for `stats` and `links`
fn study_request<'a>(
    mode: Mode,
    model: &'a str,
    script: &'a str,
    given: &Given,
) -> Option<Request<'a>>
    ensures value { option_map request_view result ≡ study_form mode model.entry.now script.entry.now
        (given_view given.now) }
{
    if !is_text(model) || !is_text(script) {
        return None;
    }
    let workers = workers_alone(given)?;
    let source = Source::FileNames { model, script };
    Some(Request {
        assignment: Assignment::Study { source, mode },
        workers,
    })
}

// `live MODEL SCRIPT [--workers N]`
fn live_request<'a>(model: &'a str, script: &'a str, given: &Given) -> Option<Request<'a>>
    ensures value { option_map request_view result ≡ live_form model.entry.now script.entry.now (given_view given.now) }
{
    if !is_text(model) || !is_text(script) {
        return None;
    }
    let workers = workers_alone(given)?;
    Some(Request {
        assignment: Assignment::Live { model, script },
        workers,
    })
}

// `solo MODEL SCRIPT --clone NAME`
fn solo_request<'a>(model: &'a str, script: &'a str, given: &Given) -> Option<Request<'a>>
    ensures value { option_map request_view result ≡ solo_form model.entry.now script.entry.now (given_view given.now) }
{
    if !is_text(model) || !is_text(script) {
        return None;
    }
    let mode = Mode::Solo(clone_alone(given)?);
    let source = Source::FileNames { model, script };
    Some(Request {
        assignment: Assignment::Study { source, mode },
        workers: 1,
    })
}

// `save MODEL SCRIPT --clone NAME --until T`
fn save_request<'a>(model: &'a str, script: &'a str, given: &Given) -> Option<Request<'a>>
    ensures value { option_map request_view result ≡ save_form model.entry.now script.entry.now (given_view given.now) }
{
    if !is_text(model) || !is_text(script) {
        return None;
    }
    let mode = saving(given)?;
    let source = Source::FileNames { model, script };
    Some(Request {
        assignment: Assignment::Study { source, mode },
        workers: 1,
    })
}

// `resume MODEL SNAPSHOT`
fn resume_request<'a>(model: &'a str, snapshot: &'a str, given: &Given) -> Option<Request<'a>>
    ensures value { option_map request_view result ≡ resume_form model.entry.now snapshot.entry.now
        (given_view given.now) }
{
    if !is_text(model) || !is_text(snapshot) || !none_given(given) {
        return None;
    }
    Some(Request {
        assignment: Assignment::Resume { model, snapshot },
        workers: 1,
    })
}

// `watch MODEL SCRIPT WATCHES [--workers N]`
fn watch_request<'a>(
    model: &'a str,
    script: &'a str,
    watches: &'a str,
    given: &Given,
) -> Option<Request<'a>>
    ensures value { option_map request_view result ≡ watch_form model.entry.now script.entry.now watches.entry.now
        (given_view given.now) }
{
    if !is_text(watches) || !is_text(model) || !is_text(script) {
        return None;
    }
    let workers = workers_alone(given)?;
    Some(Request {
        assignment: Assignment::Watch {
            model,
            script,
            watches,
        },
        workers,
    })
}

// `gen NUMBER [--workers N]`
fn gen_request<'a>(number: &str, given: &Given) -> Option<Request<'a>>
    ensures value { option_map request_view result ≡ gen_form number.now (given_view given.now) }
{
    let number = number_in(1, MAX_STUDY, number.as_bytes())?;
    let workers = workers_alone(given)?;
    let source = Source::Number(number);
    Some(Request {
        assignment: Assignment::Study {
            source,
            mode: Mode::Report,
        },
        workers,
    })
}

// The request of a mode with one more positional.
fn request_of_one<'a>(mode: &str, number: &str, given: &Given) -> Option<Request<'a>>
    ensures value { option_map request_view result ≡ form_of_one mode.now number.now (given_view given.now) }
{
    if mode == "gen" {
        gen_request(number, given)
    } else {
        None
    }
}

// The request of a mode with two more positionals.
fn request_of_two<'a>(
    mode: &str,
    first: &'a str,
    second: &'a str,
    given: &Given,
) -> Option<Request<'a>>
    ensures value { option_map request_view result ≡ form_of_two mode.now first.entry.now second.entry.now
        (given_view given.now) }
{
    if mode == "run" {
        study_request(Mode::Run, first, second, given)
    } else if mode == "solo" {
        solo_request(first, second, given)
    } else if mode == "live" {
        live_request(first, second, given)
    } else if mode == "stats" {
        study_request(Mode::Stats, first, second, given)
    } else if mode == "save" {
        save_request(first, second, given)
    } else if mode == "resume" {
        resume_request(first, second, given)
    } else if mode == "links" {
        study_request(Mode::Links, first, second, given)
    } else {
        None
    }
}

// The request of a mode with three more positionals.
fn request_of_three<'a>(
    mode: &str,
    first: &'a str,
    second: &'a str,
    third: &'a str,
    given: &Given,
) -> Option<Request<'a>>
    ensures value { option_map request_view result ≡ form_of_three mode.now first.entry.now second.entry.now
        third.entry.now (given_view given.now) }
{
    if mode == "watch" {
        watch_request(first, second, third, given)
    } else {
        None
    }
}

// The request of these values.
fn request_of<'a>(given: &Given<'a>) -> Option<Request<'a>>
    ensures value { option_map request_view result ≡ form_of (given_view given.now) }
{
    let mode = given.mode?;
    let first = given.first?;
    match (given.second, given.third) {
        (None, _) => request_of_one(mode, first, given),
        (Some(second), None) => request_of_two(mode, first, second, given),
        (Some(second), Some(third)) => request_of_three(mode, first, second, third, given),
    }
}

/// Reads the words as one of the forms of the usage line.
///
/// Returns `Usage` if the command line has no known form, and `NoMemory` if out of memory.
pub fn read_words<'a>(alloc: Global, words: &'a [Word]) -> Result<Request<'a>, WordsFault>
    // the result is the request of the words
    ensures value { IfOk result (λ r. form words.entry.now ≡ Some (request_view r)) }

    // `Usage` is returned only if the command line has no known form, and always then, unless out of memory
    ensures refused { result ≡ Err WordsFault.Usage → form words.entry.now ≡ None }
    ensures formless { form words.entry.now ≡ None → (result ≡ Err WordsFault.Usage)
        ⊎ (result ≡ Err WordsFault.NoMemory) }
{
    let given = match given_words(alloc, words) {
        Ok(Some(given)) => given,
        Ok(None) => return Err(WordsFault::Usage),
        Err(AllocError) => return Err(WordsFault::NoMemory),
    };
    match request_of(&given) {
        Some(request) => Ok(request),
        None => Err(WordsFault::Usage),
    }
}
