//! Answers that were collected in any order are put at the places of their tasks.
ghost use Rattle.std.specs.Prelude.{◌≡◌, ◌≢◌, ◌<◌, ℕ, [], List, map, Some, None, IfOk, length, slice_index_or};
ghost use Rattle.crew_pool.specs.Tasks.{AnswersTo, EachAt};
ghost use Rattle.crew_pool.specs.Deque.{numbers, occurrences, one_if_below, EachPair};
ghost use Rattle.crew_pool.specs.Calls.{AreIdle, ArePlaced};

use crate::lists::add;
use crate::work::Work;
use sim_base::NoMemory;
use std::alloc::Global;

/// Empty places for this number of answers.
fn empty_places<Y: Drop>(alloc: Global, count: usize) -> Result<Vec<Option<Y>>, NoMemory>
    ensures count { IfOk result (λ places. length places.items ≡ count) }
    ensures empty { IfOk result (λ places. AreIdle places.items) }
{
    let mut places = Vec::with_capacity(alloc, count)?;
    for _i in 0..count {
        add(&mut places, None)?;
    }
    Ok(places)
}

/// Puts each answer at its place. Numbers beyond the last place are left out.
fn put_all<W: Work>(_work: &W, places: &mut Vec<Option<W::Out>>, pairs: Vec<(u32, W::Out)>)
    ensures count { length places.new.items ≡ length places.old.items }
    ensures placed { (items : List W.In) → EachPair (AnswersTo (W.answers _work.now) items) pairs.items
        → ArePlaced (AnswersTo (W.answers _work.now) items) places.old.items []
        → ArePlaced (AnswersTo (W.answers _work.now) items) places.new.items pairs.items }
{
    for (i, out) in pairs {
        if (i as usize) < places.len() {
            places[i as usize] = Some(out);
        }
    }
}

/// Takes the answers from the places, none of which is empty.
fn take_all<Y: Drop>(alloc: Global, places: Vec<Option<Y>>) -> Result<Vec<Y>, NoMemory>
    requires full { (j : ℕ) (d : _) → j < length places.items → slice_index_or places.items j d ≢ None }
    ensures value { IfOk result (λ outs. places.items ≡ map Some outs.items) }
{
    let mut outs = Vec::with_capacity(alloc, places.len())?;
    for place in places {
        let Some(out) = place else { unreachable!() };
        add(&mut outs, out)?;
    }
    Ok(outs)
}

/// Puts the answers in the order of their tasks. Each task has one.
pub(crate) fn in_order<W: Work>(
    alloc: Global,
    work: &W,
    pairs: Vec<(u32, W::Out)>,
    tasks: usize,
) -> Result<Vec<W::Out>, NoMemory>
    requires once { (x : ℕ) → occurrences x (numbers pairs.items) ≡ one_if_below x tasks }
    requires answers { (items : List W.In) × EachPair (AnswersTo (W.answers work.now) items) pairs.items }
    ensures count { IfOk result (λ outs. length outs.items ≡ tasks) }
    ensures answers { IfOk result (λ outs. (items : List W.In)
        → EachPair (AnswersTo (W.answers work.now) items) pairs.items
        → EachAt (AnswersTo (W.answers work.now) items) outs.items) }
{
    let mut places = empty_places(alloc, tasks)?;
    put_all(work, &mut places, pairs);
    let outs = take_all(alloc, places)?;
    Ok(outs)
}
