//! Tests of the crew: calls that find memory, tasks that members steal, and calls that end although no member helps.
ghost use Rattle.std.specs.Prelude.{◌≡◌, ◌+◌, ◌<◌, ◌≤◌, length, IfOk};
ghost use Rattle.crew_pool.specs.declared.crew.TheConstants.{MAX_TASKS};

use crew_pool::{Bell, Crew, Forked, Gate, Member, Work, Workers, serve_all};
use sim_base::{NoMemory, Steps};
use std::alloc::Global;
use std::marker::Brand;
use std::sync::atomic::{AtomicU64, Ordering};
use std::sync::ledger::{Blank, Ledger};
use std::sync::{Arc, Wait};
use std::thread;
use std::thread::Threads;

/// The number of times that a thread checks whether another one has come to a point, before it gives up.
const TURNS: u32 = 1_000_000;

/// Waits until a count is at least `least`. Returns `false` if it gave up.
fn comes(count: &AtomicU64, least: u64) -> bool {
    for _ in 0..TURNS {
        if count.load(Ordering::SeqCst) >= least {
            return true;
        }
        thread::yield_now();
    }
    false
}

/// Lets other threads finish their work.
fn pause() -> bool {
    for _ in 0..1_000u32 {
        thread::yield_now();
    }
    true
}

/// Each task multiplies its item by its number, in one step.
#[derive(Drop)]
struct Products {
    /// The task that is out of memory, if there is one.
    refused: Option<u32>,
}

impl Work for Products {
    ghost use Rattle.std.specs.Prelude.{◌≡◌, ⊤};

    type In = u64;

    type Out = u64;

    ghost ready = { λ s i x. ⊤ };

    ghost answers = { λ s i x out. ⊤ };

    ghost cost = { λ out. 1 };

    fn run<L: Ledger>(
        &self,
        _alloc: Global,
        i: u32,
        item: u64,
        steps: &mut Steps<L>,
    ) -> Result<u64, NoMemory> {
        if self.refused == Some(i) {
            return Err(NoMemory);
        }
        steps.tick();
        Ok(item.wrapping_mul(u64::from(i)))
    }

    fn spent(&self, _out: &u64) -> u64 {
        1
    }

    fn is_small(&self) -> bool {
        false
    }
}

/// The tasks that a gate holds.
#[derive(Clone, Copy)]
pub(crate) enum Held {
    /// None.
    Nothing,
    /// The task of this number, until five tasks have begun.
    Task(u32),
    /// The caller's tasks, except the first `except` tasks of all workers together, until a member has begun a task.
    Caller { except: u64 },
    /// The caller's tasks, until a member has begun one, and the member's, until five tasks have begun.
    Both,
}

/// A gate that counts the tasks. It records which workers began one, and whether a held task gave up.
#[derive(Drop)]
pub(crate) struct Notes {
    held: Held,
    begun: AtomicU64,
    // a bit for each worker
    workers: AtomicU64,
    missed: AtomicU64,
}

impl Notes {
    pub(crate) fn new(held: Held) -> Notes {
        Notes {
            held,
            begun: AtomicU64::new(0),
            workers: AtomicU64::new(0),
            missed: AtomicU64::new(0),
        }
    }

    /// The number of tasks that have begun.
    pub(crate) fn begun(&self) -> u64 {
        self.begun.load(Ordering::SeqCst)
    }

    /// Whether these workers have begun a task, and no held task gave up.
    pub(crate) fn have_begun(&self, workers: u64) -> bool {
        self.workers.load(Ordering::SeqCst) == workers && self.missed.load(Ordering::SeqCst) == 0
    }
}

impl Gate for Notes {
    fn before(&self, worker: u32, task: u32) {
        self.workers.fetch_or(1 << (worker % 64), Ordering::SeqCst);
        let before = self.begun.fetch_add(1, Ordering::SeqCst);
        let came = match self.held {
            Held::Nothing => true,
            Held::Task(held) => task != held || comes(&self.begun, 5),
            Held::Caller { except } => worker != 0 || before < except || comes(&self.workers, 0b11),
            Held::Both if worker == 0 => comes(&self.workers, 0b11),
            Held::Both => comes(&self.begun, 5) && pause(),
        };
        if !came {
            self.missed.store(1, Ordering::SeqCst);
        }
    }

    fn before_call(&self, _analyst: u32, _k: u32) {}
}

/// The items 0, 1, 2 and so on.
fn items(alloc: Global, tasks: u32) -> Result<Vec<u64>, NoMemory>
    ensures count { IfOk result (λ items. length items.items ≡ tasks) }
{
    let mut items = Vec::new(alloc);
    for i in 0..tasks {
        items.push(u64::from(i))?;
    }
    Ok(items)
}

/// A call of the crew. Each task takes one step.
fn call<L: Ledger, R: Wait>(
    rt: &R,
    alloc: Global,
    crew: &mut Crew<'_, Products, Notes>,
    refused: Option<u32>,
    tasks: u32,
    steps: &mut Steps<L>,
) -> Result<Vec<u64>, NoMemory>
    requires at_most { tasks ≤ MAX_TASKS }
    ensures steps { IfOk result (λ _. steps.new ≡ steps.old + tasks) }
{
    let items = items(alloc, tasks)?;
    let work = Arc::new(alloc, Products { refused })?;
    crew.all(rt, alloc, work, items, steps)
}

/// The same call with workers that are started for this call.
fn call_forked<L: Ledger, R: Threads + Wait + Sync>(
    rt: &R,
    alloc: Global,
    workers: Workers,
    gate: &Notes,
    refused: Option<u32>,
    tasks: u32,
    steps: &mut Steps<L>,
) -> Result<Vec<u64>, NoMemory>
    requires at_most { tasks ≤ MAX_TASKS }
    ensures steps { IfOk result (λ _. steps.new ≡ steps.old + tasks) }
{
    let items = items(alloc, tasks)?;
    Forked { workers }.all(rt, alloc, &Products { refused }, items, gate, steps)
}

/// Whether these are the first square numbers.
fn are_squares(outs: &[u64], tasks: u32) -> bool {
    for i in 0..outs.len() {
        let root = i as u64;
        if outs[i] != root.wrapping_mul(root) {
            return false;
        }
    }
    outs.len() == tasks as usize
}

/// Whether this number of tasks have the right results, by the crew and by workers of one call.
fn have_answers<L: Ledger, R: Threads + Wait + Sync>(
    rt: &R,
    alloc: Global,
    crew: &mut Crew<'_, Products, Notes>,
    workers: Workers,
    tasks: u32,
    steps: &mut Steps<L>,
) -> bool
    requires at_most { tasks ≤ MAX_TASKS }
{
    let gate = crew.gate();
    let Ok(outs) = call(rt, alloc, crew, None, tasks, steps) else {
        return false;
    };
    let Ok(forked) = call_forked(rt, alloc, workers, gate, None, tasks, steps) else {
        return false;
    };
    are_squares(outs.as_slice(), tasks) && are_squares(forked.as_slice(), tasks)
}

/// Whether no task, one, five and 64 have the right results, one call after the other, and each task began once.
fn all_sizes<L: Ledger, R: Threads + Wait + Sync>(
    rt: &R,
    alloc: Global,
    crew: &mut Crew<'_, Products, Notes>,
    workers: Workers,
    steps: &mut Steps<L>,
) -> bool {
    have_answers(rt, alloc, crew, workers, 0, steps)
        && have_answers(rt, alloc, crew, workers, 1, steps)
        && have_answers(rt, alloc, crew, workers, 5, steps)
        && have_answers(rt, alloc, crew, workers, 64, steps)
        && crew.gate().begun() == 140
}

/// Whether five tasks, the third of which is out of memory, have no results, and the crew runs nothing after them.
fn is_refused<L: Ledger, R: Threads + Wait + Sync>(
    rt: &R,
    alloc: Global,
    crew: &mut Crew<'_, Products, Notes>,
    workers: Workers,
    steps: &mut Steps<L>,
) -> bool {
    let gate = crew.gate();
    call_forked(rt, alloc, workers, gate, Some(2), 5, steps).is_err()
        && call(rt, alloc, crew, Some(2), 5, steps).is_err()
        && crew.is_single()
        && call(rt, alloc, crew, None, 5, steps).is_err()
}

/// Whether a member runs a call of five tasks that is started and finished later.
fn finish_later<L: Ledger, R: Wait>(
    rt: &R,
    alloc: Global,
    crew: Crew<'_, Products, Notes>,
    steps: &mut Steps<L>,
) -> Result<bool, NoMemory> {
    let gate = crew.gate();
    let items = items(alloc, 5)?;
    let work = Arc::new(alloc, Products { refused: None })?;
    let started = crew.start(alloc, work, items)?;
    let by_members = comes(&gate.begun, 5) && gate.have_begun(0b10);
    let (mut crew, outs) = started.finish(rt, alloc, steps)?;
    let more = call(rt, alloc, &mut crew, None, 1, steps)?;
    Ok(by_members && are_squares(outs.as_slice(), 5) && are_squares(more.as_slice(), 1))
}

/// What the caller does with its crew.
#[derive(Clone, Copy)]
enum Plan {
    /// Calls of all sizes, and then one that is out of memory.
    AllSizes(Workers),
    /// One call of five tasks.
    Five,
    /// One call of five tasks that is started and finished later.
    FiveLater,
}

/// Whether the calls of the plan have the right results.
fn follow<L: Ledger, R: Threads + Wait + Sync>(
    rt: &R,
    alloc: Global,
    crew: Crew<'_, Products, Notes>,
    plan: Plan,
    steps: &mut Steps<L>,
) -> bool {
    let mut crew = crew;
    match plan {
        Plan::AllSizes(workers) => {
            all_sizes(rt, alloc, &mut crew, workers, steps)
                && is_refused(rt, alloc, &mut crew, workers, steps)
        }
        Plan::Five => match call(rt, alloc, &mut crew, None, 5, steps) {
            Ok(outs) => are_squares(outs.as_slice(), 5),
            Err(NoMemory) => false,
        },
        Plan::FiveLater => finish_later(rt, alloc, crew, steps) == Ok(true),
    }
}

/// The same with the step counter of a blank. Then the bell dismisses the members, whatever the result.
fn lead_counted<L: Ledger, R: Threads + Wait + Sync>(
    rt: &R,
    alloc: Global,
    crew: Crew<'_, Products, Notes>,
    plan: Plan,
    bell: &Bell,
    blank: Blank,
) -> bool
    requires name { blank.name ≡ L.name }
    requires parts { blank.parts ≡ L.parts }
    requires nonempty { 0 < L.parts }
{
    let mut steps = Steps::<L>::new(blank);
    let right = follow(rt, alloc, crew, plan, &mut steps);
    bell.end();
    right
}

/// The same with a new step counter.
fn lead<R: Threads + Wait + Sync>(
    rt: &R,
    alloc: Global,
    crew: Crew<'_, Products, Notes>,
    plan: Plan,
    bell: &Bell,
) -> bool {
    lead_counted::<Brand, R>(rt, alloc, crew, plan, bell, Blank::new(1))
}

/// The same, while these members serve concurrently.
fn lead_beside<R: Threads + Wait + Sync>(
    rt: &R,
    alloc: Global,
    crew: Crew<'_, Products, Notes>,
    members: Vec<Member<'_, Products, Notes>>,
    plan: Plan,
    bell: &Bell,
) -> bool {
    let (_, right) = thread::join(
        rt,
        move || serve_all(rt, alloc, bell, members),
        move || lead(rt, alloc, crew, plan, bell),
    );
    right
}

/// The same by a crew of this number of workers.
fn lead_crew<R: Threads + Wait + Sync>(
    rt: &R,
    alloc: Global,
    gate: &Notes,
    workers: Workers,
    plan: Plan,
) -> Option<bool> {
    let (crew, members) = Crew::begin(alloc, gate, workers).ok()?;
    let bell = crew.bell().ok()?;
    Some(lead_beside(rt, alloc, crew, members, plan, &bell))
}

/// Whether five tasks by two workers finish under a gate that holds these.
fn five_held<R: Threads + Wait + Sync>(rt: &R, alloc: Global, held: Held) -> bool {
    let gate = Notes::new(held);
    let right = lead_crew(rt, alloc, &gate, Workers { count: 2 }, Plan::Five);
    right == Some(true) && gate.begun() == 5 && gate.have_begun(0b11)
}

/// Calls of all sizes by a crew of this number of workers.
fn all_sizes_by<R: Threads + Wait + Sync>(rt: &R, alloc: Global, count: u32) -> Option<bool> {
    let workers = Workers::new(count)?;
    let gate = Notes::new(Held::Nothing);
    lead_crew(rt, alloc, &gate, workers, Plan::AllSizes(workers))
}

/// Calls of all sizes by a crew whose members are never started: the caller takes back their tasks.
fn all_sizes_alone<R: Threads + Wait + Sync>(rt: &R, alloc: Global) -> Option<bool> {
    let workers = Workers { count: 4 };
    let gate = Notes::new(Held::Nothing);
    let (crew, _members) = Crew::begin(alloc, &gate, workers).ok()?;
    let bell = crew.bell().ok()?;
    Some(lead(rt, alloc, crew, Plan::AllSizes(workers), &bell))
}

#[test]
fn one_to_sixteen_workers(rt: HostRuntime) {
    assert!(rt; Workers::new(0).is_none() && Workers::new(17).is_none());
    for count in 1..17u32 {
        assert!(rt;
            all_sizes_by(&rt, rt.alloc(), count) == Some(true),
            "{}",
            count
        );
    }
}

#[test]
fn alone_the_caller_runs_all(rt: HostRuntime) {
    assert!(rt; all_sizes_alone(&rt, rt.alloc()) == Some(true));
}

/// If the tasks were assigned to the workers beforehand, one of the two calls would give up.
#[test]
fn tasks_stolen(rt: HostRuntime) {
    assert!(rt; five_held(&rt, rt.alloc(), Held::Task(0)));
    assert!(rt; five_held(&rt, rt.alloc(), Held::Task(1)));
}

/// The caller is held until the member has begun a task, and the member until the caller has begun the others. So the
/// caller finishes first, and waits for the member.
#[test]
fn workers_meet(rt: HostRuntime) {
    assert!(rt; five_held(&rt, rt.alloc(), Held::Both));
}

/// A member runs what the caller has started while the caller does other work.
#[test]
fn a_call_is_finished_later(rt: HostRuntime) {
    let gate = Notes::new(Held::Nothing);
    let right = lead_crew(
        &rt,
        rt.alloc(),
        &gate,
        Workers { count: 2 },
        Plan::FiveLater,
    );
    assert!(rt; right == Some(true) && gate.begun() == 6 && gate.have_begun(0b11));
}
