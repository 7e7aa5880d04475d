//! Whether watches fit a model and the clones of a script.
ghost use Rattle.std.specs.Prelude.{◌≡◌, ◌<◌, ◌≤◌, length, reverse};
ghost use Rattle.std.specs.List.{list_any};
ghost use Rattle.std.specs.Str.{bytes_eq};
ghost use Rattle.net_model.specs.Net.{HasStation, site_of};
ghost use Rattle.decision_book.specs.Replies.{first_row};
ghost use Rattle.watch_points.specs.declared.watch.TheConstants.{MAX_WATCHES};
ghost use Rattle.watch_points.specs.Checking.{watched_clone as watched_clone_of, is_taken as is_taken_by};
ghost use Rattle.watch_points.specs.Checking.{clone_rows, fit, is_server as is_server_kind, watch_reply};

use crate::watch::{Watch, Watches};
use decision_book::Reply;
use net_model::{Kind, Model};
use sim_base::{Lists, MAX_CLONES, MAX_DECISIONS, Name};
use stations::change::{ChangeFault, accepts};

/// The first watch that does not fit, and why.
#[derive(Clone, Copy, Debug, PartialEq, Eq)]
pub struct Unfit {
    /// Its line in the text, from 1.
    pub line: u32,
    /// The reply to its branch, which is never `Accepted`.
    pub reply: Reply,
}

/// A clone that is watched, before the simulation: a clone of the script, or the branch of an earlier watch.
#[derive(Clone, Copy, Debug)]
pub struct WatchedClone {
    /// The time from which it handles nothing, if it has one.
    pub end: Option<u64>,
    /// The number of its decisions.
    pub decisions: u64,
}

// The clone of this name. The branch of an earlier watch has the decisions of that watch's clone, and one more.
fn watched_clone(lists: &Lists, earlier: &[Watch], who: Name) -> Option<WatchedClone>
    requires at_most { length earlier.now ≤ MAX_WATCHES }
    ensures value { result ≡ watched_clone_of lists.now.clones (reverse earlier.now) who }
{
    let mut name = who;
    let mut branches: u64 = 0;
    let mut left = earlier.len();
    'back: while left > 0 {
        left -= 1;
        if earlier[left].new.as_bytes() == name.as_bytes() {
            name = earlier[left].who;
            branches += 1;
        }
    }
    let c = lists.find(&name)?;
    let end = if branches == 0 { lists.end_of(c) } else { None };
    Some(WatchedClone {
        end,
        decisions: lists.list(c).len() as u64 + branches,
    })
}

// Whether the branch of one of these watches has this name.
fn is_branch(earlier: &[Watch], name: Name) -> bool
    ensures value { result ≡ list_any (λ w. bytes_eq w.new name) earlier.now }
{
    earlier
        .iter()
        .any(|watch| watch.new.as_bytes() == name.as_bytes())
}

// Whether a clone of the script or the branch of an earlier watch has this name.
#[tactic(auto, using(crate::proofs::NamesBack::any_reverse))]
fn is_taken(lists: &Lists, earlier: &[Watch], name: Name) -> bool
    ensures value { result ≡ is_taken_by lists.now.clones (reverse earlier.now) name }
{
    lists.find(&name).is_some() || is_branch(earlier, name)
}

fn is_server(model: &Model, station: u32) -> bool
    requires is_station { HasStation model.now station }
    ensures value { result ≡ is_server_kind (site_of model.now station).kind }
{
    matches!(model.station(station).kind, Kind::Server { .. })
}

// The reply to a watch of this clone.
fn reply_for(
    model: &Model,
    lists: &Lists,
    earlier: &[Watch],
    watch: &Watch,
    clone: WatchedClone,
) -> Reply
    requires below { length earlier.now < MAX_WATCHES }
    ensures value { result ≡ first_row (clone_rows model.now lists.now.clones (reverse earlier.now) watch.now clone) }
{
    if let Some(at) = clone.end {
        return Reply::Ended { at };
    }
    if is_taken(lists, earlier, watch.new) {
        return Reply::NameTaken;
    }
    if lists.len() as usize + earlier.len() >= MAX_CLONES as usize {
        return Reply::TooManyClones;
    }
    let Some(station) = model.find(&watch.station) else {
        return Reply::UnknownStation;
    };
    let Some(target) = model.find(&watch.target) else {
        return Reply::UnknownStation;
    };
    if !is_server(model, station) {
        return Reply::WrongParameter;
    }
    match accepts(model, target, &watch.change) {
        Err(ChangeFault::WrongParameter) => return Reply::WrongParameter,
        Err(ChangeFault::OutOfRange) => return Reply::OutOfRange,
        Ok(()) => {}
    }
    if clone.decisions >= u64::from(MAX_DECISIONS) {
        return Reply::ListFull;
    }
    Reply::Accepted
}

// The reply to a watch after earlier ones.
fn reply_to(model: &Model, lists: &Lists, earlier: &[Watch], watch: &Watch) -> Reply
    requires below { length earlier.now < MAX_WATCHES }
    ensures value { result ≡ watch_reply model.now lists.now.clones (reverse earlier.now) watch.now }
{
    match watched_clone(lists, earlier, watch.who) {
        Some(clone) => reply_for(model, lists, earlier, watch, clone),
        None => Reply::UnknownClone,
    }
}

/// Whether all watches fit the model and the clones of the script. If not: the first watch that does not, and the first
/// reply of the table in `specs/Checking.antt` whose condition holds for it. Allocates nothing.
pub fn check(model: &Model, lists: &Lists, w: &Watches) -> Result<(), Unfit>
    ensures value { result ≡ fit model.now lists.now.clones w.now }
{
    let items = w.items.as_slice();
    'watches: for i in 0..items.len() {
        let watch = &items[i];
        match reply_to(model, lists, &items[..i], watch) {
            Reply::Accepted => {}
            reply => {
                return Err(Unfit {
                    line: watch.line,
                    reply,
                });
            }
        }
    }
    Ok(())
}
