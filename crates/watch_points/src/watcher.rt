//! The watches over a world: at each window's end the branches of the watches that are due are made.
ghost use Rattle.std.specs.Prelude.{◌≡◌, ◌+◌, ◌<◌, ◌≤◌, ◌++◌, length, position, take, slice_get};
ghost use Rattle.std.specs.Prelude.{slice_set, Some, Ok, IfOk, IfSome, IsFalse, IsTrue, OnOk};
ghost use Rattle.std.specs.List.{range_with_len};
ghost use Rattle.std.specs.Str.{bytes_eq};
ghost use Rattle.run_laws.specs.Fronts.{IsWindow};
ghost use Rattle.stations.specs.Runs.{simulation};
ghost use Rattle.watch_points.specs.Branches.{present};
ghost use Rattle.world_core.specs.Worlds.{total_handled};
ghost use Rattle.watch_points.specs.Checking.{fit};
ghost use Rattle.watch_points.specs.CloneNumbers.{IsPlaceOf, clone_number as clone_number_of};
ghost use Rattle.watch_points.specs.CloneNumbers.{is_made_at as is_made_at_place, maker_of};
ghost use Rattle.watch_points.specs.FittingWatches.{FitsAfter};
ghost use Rattle.watch_points.specs.Starting.{IsStarted, source_named as source_named_of};
ghost use Rattle.watch_points.specs.Laws.{watch_order};
ghost use Rattle.watch_points.specs.Peaks.{IsPeak};
ghost use Rattle.watch_points.specs.Progress.{IsInRange, made_branch as made_branch_of, places_of};
ghost use Rattle.watch_points.specs.Progress.{source_place as source_place_of};
ghost use Rattle.watch_points.specs.Watchers.{Follows, IsDueInPass, IsPassing, IsStep, progress_of};
ghost use Rattle.watch_points.specs.Watchers.{watches_of};
ghost use Rattle.watch_points.specs.declared.watcher.ActiveWatch.{ActiveWatch};

use crate::peak::{Peak, peak_from};
use crate::waiting::first_wait;
use crate::watch::{MAX_WATCHES, Watch, Watches};
use net_model::Model;
use sim_base::{Lists, Name, NoMemory, Planned};
use std::alloc::Global;
use std::sync::Arc;
use world_core::World;

/// The clone that a watch watches.
#[derive(Clone, Copy, Debug, PartialEq, Eq)]
pub enum Source {
    /// The script's clone at this place.
    OfScript(u32),
    /// The branch of the earlier watch at this place.
    OfWatch(u32),
}

/// How far a watch has come.
#[derive(Clone, Copy, Debug, PartialEq, Eq)]
pub enum Progress {
    /// It is not due so far. This number of entries of its log were looked at.
    Waiting { seen: u64 },
    /// It is due, but its change would come at the horizon or later.
    PastHorizon,
    /// Its branch was made: the place among the clones, and the time of the change.
    Made { place: u32, start: u64 },
}

/// A watch with its stations and its clone, and how far it has come.
#[derive(Clone, Copy, Debug, PartialEq, Eq)]
pub struct ActiveWatch {
    /// The watch.
    pub watch: Watch,
    /// The number of the watched station.
    pub station: u32,
    /// The number of the station that the branch changes.
    pub target: u32,
    /// The watched clone.
    pub source: Source,
    /// How far it has come.
    pub progress: Progress,
}

/// The watches over a world on its way to the horizon.
#[derive(Drop)]
pub struct Watcher {
    model: Arc<Model>,
    // the number of the script's clones, which are the first
    script_len: u32,
    // the front up to which the logs were looked at
    front: u64,
    active: Vec<ActiveWatch>,
}

impl std::marker::Model for Watcher {
    ghost use Rattle.std.specs.Prelude.{◌≤◌, length};
    ghost use Rattle.watch_points.specs.Watchers.{WatcherView};
    ghost use Rattle.watch_points.specs.declared.watch.TheConstants.{MAX_WATCHES};

    ghost Value = { WatcherView };

    ghost view = { λ w. record {
      net = w.model.value;
      script_len = w.script_len;
      front = w.front;
      active = w.active.items;
    } };

    ghost invariant = { λ w. length w.active.items ≤ MAX_WATCHES };
}

// The place of the first watch whose branch has this name.
fn branch_place(earlier: &[Watch], name: &Name) -> Option<usize>
    ensures value { result ≡ position (λ w. bytes_eq w.new name.now) earlier.now }
    ensures in_range { IfSome result (λ i. i < length earlier.now) }
{
    earlier
        .iter()
        .position(|watch| watch.new.as_bytes() == name.as_bytes())
}

// The clone of this name: a clone of the script, or the branch of an earlier watch.
fn source_named(lists: &Lists, earlier: &[Watch], name: &Name) -> Option<Source>
    requires at_most { length earlier.now ≤ MAX_WATCHES }
    ensures value { result ≡ source_named_of lists.now.clones earlier.now name.now }
{
    if let Some(c) = lists.find(name) {
        return Some(Source::OfScript(c));
    }
    match branch_place(earlier, name) {
        Some(i) => Some(Source::OfWatch(i as u32)),
        None => None,
    }
}

// A watch that fits after earlier ones, before the simulation begins.
fn start_watch(model: &Model, lists: &Lists, earlier: &[Watch], watch: Watch) -> ActiveWatch
    requires at_most { length earlier.now ≤ MAX_WATCHES }
    requires fits { FitsAfter model.now lists.now.clones earlier.now watch }
    ensures watch { result.watch ≡ watch }
    ensures started { IsStarted model.now lists.now.clones earlier.now result }
{
    let Some(source) = source_named(lists, earlier, &watch.who) else {
        unreachable!()
    };
    let Some(station) = model.find(&watch.station) else {
        unreachable!()
    };
    let Some(target) = model.find(&watch.target) else {
        unreachable!()
    };
    ActiveWatch {
        watch,
        station,
        target,
        source,
        progress: Progress::Waiting { seen: 0 },
    }
}

// The place and the start of a watch's branch, if it was made.
fn made_branch(active: &ActiveWatch) -> Option<(u32, u64)>
    ensures value { result ≡ made_branch_of active.now.progress }
{
    match active.progress {
        Progress::Made { place, start } => Some((place, start)),
        _ => None,
    }
}

// Whether the branch was made, and is the clone at this place.
fn is_made_at(active: &ActiveWatch, place: u32) -> bool
    ensures value { result ≡ is_made_at_place place active.now.progress }
{
    match active.progress {
        Progress::Made { place: at, .. } => at == place,
        _ => false,
    }
}

// The place of the watch whose branch is the clone at this place.
fn maker(active: &[ActiveWatch], place: u32) -> Option<usize>
    ensures value { result ≡ maker_of place active.now }
    ensures in_range { IfSome result (λ i. i < length active.now) }
{
    active.iter().position(|watch| is_made_at(watch, place))
}

// The first n places.
fn first_places(alloc: Global, n: u32) -> Result<Vec<u32>, NoMemory>
    ensures value { IfOk result (λ v. v.items ≡ range_with_len 0 n) }
{
    let mut places = Vec::with_capacity(alloc, n as usize)?;
    'below: for i in 0..n {
        places.push(i)?;
    }
    Ok(places)
}

// Adds the places of the branches that were made.
fn push_places(order: &mut Vec<u32>, active: &[ActiveWatch]) -> Result<(), NoMemory>
    ensures ok { OnOk result (order.new.items ≡ order.old.items ++ present (places_of (progress_of active.now))) }
{
    'watches: for a in active {
        if let Some((place, _)) = made_branch(a) {
            order.push(place)?;
        }
    }
    Ok(())
}

impl Watcher {
    /// The watches that fit the model and the clones of the script, before the simulation begins.
    pub fn new(
        alloc: Global,
        model: Arc<Model>,
        lists: &Lists,
        w: &Watches,
    ) -> Result<Watcher, NoMemory>
        requires fits { fit model.value lists.now.clones w.now ≡ Ok tt }
        ensures follows { IfOk result (λ v. Follows v model.value lists.now.clones 0) }
        ensures script { IfOk result (λ v. v.script_len ≡ length lists.now.clones) }
        ensures watches { IfOk result (λ v. watches_of v.active ≡ w.now) }
    {
        // for its clause: the model keeps every rule
        let _stations = model.len();
        let items = w.items.as_slice();
        let mut active = Vec::with_capacity(alloc, items.len())?;
        'watches: for i in 0..items.len() {
            active.push(start_watch(&model, lists, &items[..i], items[i]))?;
        }
        Ok(Watcher {
            model,
            script_len: lists.len(),
            front: 0,
            active,
        })
    }

    // The place of a watched clone, and the time from which it is watched, if it is there.
    fn source_place(&self, source: Source) -> Option<(u32, u64)>
        requires in_range { IsInRange (length self.now.active) source }
        ensures value { result ≡ source_place_of (progress_of self.now.active) source }
    {
        match source {
            Source::OfScript(c) => Some((c, 0)),
            Source::OfWatch(i) => made_branch(&self.active[i as usize]),
        }
    }

    // Notes how far a watch has come.
    fn set_progress(&mut self, i: usize, progress: Progress)
        requires in_range { i < length self.old.active }
        ensures value { (a : ActiveWatch) → slice_get self.old.active i ≡ Some a →
            self.new ≡ record self.old { active = slice_set self.old.active i (record a { progress = progress }) } }
    {
        let active = &mut self.active[i];
        active.progress = progress;
    }

    // Makes the branch of a watch that is due, unless its change would come at the horizon or later.
    fn make_branch(
        &mut self,
        alloc: Global,
        world: World,
        i: usize,
        active: ActiveWatch,
        clone: u32,
        due: u64,
    ) -> Result<World, NoMemory>
        requires is_due { IsDueInPass self.old world i active clone due }
        ensures passing { IfOk result (λ n. IsPassing self.new n (i + 1)) }
        ensures step { IfOk result (λ n. IsStep self.old self.new world n) }
    {
        let at = due + self.model.lookahead();
        if at >= self.model.horizon() {
            self.set_progress(i, Progress::PastHorizon);
            return Ok(world);
        }
        let place = world.lists().len();
        let plan = Planned {
            at,
            station: active.target,
            change: active.watch.change,
        };
        let world = world.with_fork(alloc, active.watch.new, clone)?;
        let world = world.with_set(place, plan)?;
        self.set_progress(i, Progress::Made { place, start: at });
        Ok(world)
    }

    // Reads the log entries that a watch, which waits, has not seen. Makes its branch if it is due.
    fn read_on(
        &mut self,
        alloc: Global,
        world: World,
        i: usize,
        active: ActiveWatch,
        seen: u64,
    ) -> Result<World, NoMemory>
        requires passing { IsPassing self.old world i }
        requires is_watch { slice_get self.old.active i ≡ Some active }
        requires waits { active.progress ≡ Progress.Waiting seen }
        ensures passing { IfOk result (λ n. IsPassing self.new n (i + 1)) }
        ensures step { IfOk result (λ n. IsStep self.old self.new world n) }
    {
        let Some((clone, start)) = self.source_place(active.source) else {
            return Ok(world);
        };
        let log = world.log(clone, active.station);
        let Some(due) = first_wait(log, seen, start, active.watch.least) else {
            let seen = log.len();
            self.set_progress(i, Progress::Waiting { seen });
            return Ok(world);
        };
        self.make_branch(alloc, world, i, active, clone, due)
    }

    // Takes the watch at a place through the window's end. It is seldom called, and not inlined, so that the loop over
    // the watches stays small.
    #[inline(never)]
    fn look(&mut self, alloc: Global, world: World, i: usize) -> Result<World, NoMemory>
        requires in_range { i < length self.old.active }
        requires passing { IsPassing self.old world i }
        ensures passing { IfOk result (λ n. IsPassing self.new n (i + 1)) }
        ensures step { IfOk result (λ n. IsStep self.old self.new world n) }
    {
        let active = self.active[i];
        match active.progress {
            Progress::Made { .. } => Ok(world),
            Progress::PastHorizon => Ok(world),
            Progress::Waiting { seen } => self.read_on(alloc, world, i, active, seen),
        }
    }

    // Whether it is certain that a watch makes no branch. Then it has passed through the window's end.
    fn still_waits(&mut self, world: &World, i: usize, peak: &mut Option<Peak>) -> bool
        requires in_range { i < length self.old.active }
        requires passing { IsPassing self.old world.now i }
        requires peak { IfSome peak.old (IsPeak world.now) }
        ensures peak { IfSome peak.new (IsPeak world.now) }
        ensures passing { IsTrue result → IsPassing self.new world.now (i + 1) }
        ensures step { IsTrue result → IsStep self.old self.new world.now world.now }
        ensures same { IsFalse result → self.new ≡ self.old }
    {
        let active = &self.active[i];
        let Progress::Waiting { seen } = active.progress else {
            return true;
        };
        let Some((clone, _)) = self.source_place(active.source) else {
            return true;
        };
        let least = active.watch.least;
        let read = peak_from(*peak, world, clone, active.station, seen);
        *peak = Some(read);
        if least <= read.most {
            return false;
        }
        if seen == read.len {
            return true;
        }
        self.set_progress(i, Progress::Waiting { seen: read.len });
        true
    }

    /// Gives a world the branches of all watches that are due in its last window: for each a fork and a set. It is
    /// called once after each window.
    ///
    /// In all calls a watch that waits reads each entry of its log at most twice. Watches of one clone and station that
    /// follow each other share the first reading. Out of memory, the watcher is given up.
    pub fn after(&mut self, alloc: Global, world: World) -> Result<World, NoMemory>
        requires follows { Follows self.old world.net world.clones self.old.front }
        requires window { IsWindow (simulation world.net) world.clones self.old.front world.front }
        // the same world with the branches, all of them, each with its change in time
        ensures follows { IfOk result (λ n. Follows self.new n.net n.clones n.front) }
        ensures world { IfOk result (λ n. n ≡ record world { clones = n.clones }) }
        // what stays: the script's clones, the watches, and the number of messages that were handled
        ensures script { IfOk result (λ n. take self.old.script_len n.clones ≡ take self.old.script_len world.clones) }
        ensures script_len { OnOk result (self.new.script_len ≡ self.old.script_len) }
        ensures watches { OnOk result (watches_of self.new.active ≡ watches_of self.old.active) }
        ensures handled { IfOk result (λ n.
            total_handled n.net n.clones n.front ≡ total_handled n.net world.clones n.front) }
    {
        // for its clauses: the clones' decisions are for stations
        let _lists = world.lists();
        let front = world.front();
        let mut world = world;
        let mut peak = None;
        'watches: for i in 0..self.active.len() {
            if self.still_waits(&world, i, &mut peak) {
                continue;
            }
            peak = None;
            world = self.look(alloc, world, i)?;
        }
        self.front = front;
        Ok(world)
    }

    /// The number of the clone at a place of the world, which does not depend on the order in which branches were made:
    /// its place if it is the script's, or else the number of the script's clones and the place of the watch that made
    /// it.
    #[tactic(auto, using(crate::proofs::CloneNumbers::script_number, crate::proofs::CloneNumbers::watch_number))]
    pub fn clone_number(&self, place: u32) -> u32
        requires is_place { IsPlaceOf self.now place }
        ensures value { result ≡ clone_number_of self.now place }
    {
        if place < self.script_len {
            return place;
        }
        match maker(self.active.as_slice(), place) {
            Some(i) => self.script_len + i as u32,
            None => unreachable!(),
        }
    }

    /// The places of the clones in the order of the watches: the script's clones, then the branches that were made.
    pub fn order(&self, alloc: Global) -> Result<Vec<u32>, NoMemory>
        ensures value { IfOk result (λ v. v.items ≡ watch_order self.now) }
    {
        let mut order = first_places(alloc, self.script_len)?;
        push_places(&mut order, self.active.as_slice())?;
        Ok(order)
    }
}
