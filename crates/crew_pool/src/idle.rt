//! A crew between two calls, and how a call is dealt.
ghost use Rattle.std.specs.Prelude.{◌≡◌, ◌+◌, ◌<◌, Some, None, IfOk, OnOk, length};
ghost use Rattle.crossbeam_deque.specs.Handles.{worker_deque, worker_view};
ghost use Rattle.crew_pool.specs.Tasks.{MayRunAll};
ghost use Rattle.crew_pool.specs.declared.workers.TheConstants.{MAX_WORKERS};
ghost use Rattle.crew_pool.specs.Deque.{SameDeque};
ghost use Rattle.crew_pool.specs.Calls.{IsDealt, AreIdle, AreOut};

use crate::bell::Bell;
use crate::gate::Gate;
use crate::gathering::JobCaller;
use crate::job::Job;
use crate::lists::add;
use crate::member::Member;
use crate::started::Started;
use crate::task_deque::{OnePart, Owner, deal, forget, open_deque};
use crate::work::Work;
use crate::workers::Workers;
use crossbeam_utils::sync::Parker;
use sim_base::NoMemory;
use std::alloc::Global;
use std::sync::Arc;

/// A crew between two calls: what wakes its members, a mailbox for each of them, and the deque, whose tasks were all
/// taken.
#[derive(Drop)]
pub struct IdleCrew<W: Work> {
    /// What wakes the members.
    pub(crate) bell: Arc<Bell>,
    /// The caller's end of each member's mailbox, by the member's number.
    pub(crate) callers: Vec<JobCaller<W>>,
    /// The deque that members steal from.
    pub(crate) deque: Owner<W::In>,
}

impl<W: Work> std::marker::Model for IdleCrew<W> {
    ghost use Rattle.std.specs.Prelude.{◌<◌, length};
    ghost use Rattle.crew_pool.specs.declared.workers.TheConstants.{MAX_WORKERS};
    ghost use Rattle.crew_pool.specs.Calls.{AreIdle, IsResting};

    ghost Value = { Unit {0} };

    ghost view = { λ _. tt };

    ghost invariant = { λ c. IsResting c.deque × AreIdle c.callers.items × (length c.callers.items < MAX_WORKERS) };
}

/// Gives one member a job.
fn give_job<W: Work + Send + Drop>(
    mut caller: JobCaller<W>,
    work: &Arc<W>,
    deque: &mut Owner<W::In>,
    out: usize,
) -> Result<JobCaller<W>, NoMemory>
    requires idle { caller ≡ None }
    requires dealt { IsDealt (W.ready work.now.value) out (worker_view deque.old).dealt deque.old }
    requires at_most { out + 1 < MAX_WORKERS }
    ensures same { SameDeque deque.old deque.new }
    ensures dealt { OnOk result (IsDealt (W.ready work.now.value) (out + 1) (worker_view deque.old).dealt deque.new) }
    ensures given { IfOk result (λ c. c ≡ Some (record {
      work = work.now.value;
      deque = worker_deque deque.old;
      items = (worker_view deque.old).dealt;
    })) }
{
    let Ok(thief) = deque.stealer() else {
        return Err(NoMemory);
    };
    let work = work.clone()?;
    let seat = deque.another::<OnePart>();
    caller.give(Job::new(work, thief, seat));
    Ok(caller)
}

/// Gives at most `most` members a job each, and wakes them. Returns the callers of these members and those of the
/// others, each in the order of the members' numbers.
fn give_jobs<W: Work + Send + Drop>(
    alloc: Global,
    callers: Vec<JobCaller<W>>,
    bell: &Bell,
    work: &Arc<W>,
    deque: &mut Owner<W::In>,
    most: usize,
) -> Result<(Vec<JobCaller<W>>, Vec<JobCaller<W>>), NoMemory>
    requires idle { AreIdle callers.items }
    requires at_most { length callers.items < MAX_WORKERS }
    requires dealt { IsDealt (W.ready work.now.value) 0 (worker_view deque.old).dealt deque.old }
    ensures same { SameDeque deque.old deque.new }
    ensures dealt { IfOk result (λ r. IsDealt (W.ready work.now.value) (length r.0.items) (worker_view deque.old).dealt
        deque.new) }
    ensures out { IfOk result (λ r. AreOut (record {
      work = work.now.value;
      deque = worker_deque deque.old;
      items = (worker_view deque.old).dealt;
    }) r.0.items) }
    ensures idle { IfOk result (λ r. AreIdle r.1.items) }
    ensures count { IfOk result (λ r. length r.0.items + length r.1.items ≡ length callers.items) }
{
    let mut busy = Vec::with_capacity(alloc, callers.len())?;
    let mut idle = Vec::with_capacity(alloc, callers.len())?;
    for caller in callers {
        if busy.len() < most {
            let caller = give_job(caller, work, deque, busy.len())?;
            add(&mut busy, caller)?;
            bell.wake(busy.len());
        } else {
            add(&mut idle, caller)?;
        }
    }
    Ok((busy, idle))
}

impl<W: Work + Send + Drop> IdleCrew<W> {
    /// A crew of this number of workers, together with its members: all workers except the caller.
    pub(crate) fn begin<'g, G: Gate>(
        alloc: Global,
        gate: &'g G,
        workers: Workers,
    ) -> Result<(IdleCrew<W>, Vec<Member<'g, W, G>>), NoMemory> {
        let deque = open_deque(alloc)?;
        let mut callers = Vec::new(alloc);
        let mut members = Vec::new(alloc);
        let mut wakers = Vec::new(alloc);
        for number in 1..workers.count {
            let (caller, jobs) = crate::open(alloc)?;
            let parker = Parker::new(alloc)?;
            add(&mut wakers, parker.unparker().clone()?)?;
            add(&mut callers, caller)?;
            add(&mut members, Member::new(gate, number, jobs, parker))?;
        }
        let bell = Arc::new(alloc, Bell::new(wakers))?;
        let crew = IdleCrew {
            bell,
            callers,
            deque,
        };
        Ok((crew, members))
    }

    /// The bell of this crew.
    pub(crate) fn bell(&self) -> Result<Arc<Bell>, NoMemory> {
        Ok(self.bell.clone()?)
    }

    /// Whether it has no members.
    pub(crate) fn is_single(&self) -> bool {
        self.callers.is_empty()
    }

    /// Deals a task for each item, and wakes as many members as can help, or none if the work is small.
    pub(crate) fn start<'g, G: Gate>(
        self,
        alloc: Global,
        gate: &'g G,
        work: Arc<W>,
        items: Vec<W::In>,
    ) -> Result<Started<'g, W, G>, NoMemory>
        requires may_run { MayRunAll (W.ready work.value) items.items }
        ensures value { IfOk result (λ s. s ≡ record { work = work.value; items = items.items }) }
    {
        let IdleCrew {
            bell,
            callers,
            mut deque,
        } = self;
        let tasks = items.len();
        let most = if work.is_small() {
            0
        } else {
            tasks.saturating_sub(1)
        };
        forget(&mut deque);
        deal(&mut deque, items)?;
        let (busy, idle) = give_jobs(alloc, callers, &bell, &work, &mut deque, most)?;
        Ok(Started {
            gate,
            bell,
            work,
            tasks,
            busy,
            idle,
            deque,
        })
    }
}
