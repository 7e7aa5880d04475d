//! The members of a crew, and what each of them runs.
use crate::Worker;
use crate::bell::Bell;
use crate::gate::Gate;
use crate::job::{ByStealing, End, Job};
use crate::work::Work;
use crossbeam_utils::sync::Parker;
use std::alloc::Global;
use std::sync::Wait;
use std::thread;
use std::thread::Threads;

/// How often a member looks for a job without success before it sleeps.
const MAX_LOOKS: u32 = 2_000;

/// A member's end of its mailbox.
pub type JobWorker<W> = Worker<Job<W>, End<W>, ByStealing>;

/// A member of a crew: a worker other than the caller.
#[derive(Drop)]
pub struct Member<'g, W: Work, G: Gate> {
    gate: &'g G,
    number: u32,
    jobs: JobWorker<W>,
    parker: Parker,
}

impl<'g, W: Work, G: Gate> std::marker::Model for Member<'g, W, G> {
    ghost use Rattle.std.specs.Prelude.{◌≡◌, None};

    ghost Value = { Unit {0} };

    ghost view = { λ _. tt };

    ghost invariant = { λ m. m.jobs ≡ None };
}

impl<'g, W: Work, G: Gate> Member<'g, W, G> {
    ghost use Rattle.std.specs.Prelude.{◌≡◌, None};

    /// The member of this number. Members are numbered from 1.
    pub(crate) fn new(
        gate: &'g G,
        number: u32,
        jobs: JobWorker<W>,
        parker: Parker,
    ) -> Member<'g, W, G>
        requires idle { jobs ≡ None }
    {
        Member {
            gate,
            number,
            jobs,
            parker,
        }
    }
}

/// Runs each job that a member is given, until the bell says that no more calls come. Between two jobs the member looks
/// for the next one `MAX_LOOKS` times, and then sleeps until it is woken.
pub fn serve<W: Work + Send + Drop, G: Gate, R: Wait>(
    rt: &R,
    alloc: Global,
    bell: &Bell,
    member: Member<'_, W, G>,
) {
    let Member {
        gate,
        number,
        mut jobs,
        parker,
    } = member;
    let mut looks = 0;
    for _ in rt.forever() {
        if bell.is_ended() {
            break;
        }
        if jobs.has_task() {
            if let Some(job) = jobs.take() {
                let end = job.run(alloc, gate, number);
                jobs.answer(end);
            }
            looks = 0;
        } else if looks < MAX_LOOKS {
            looks += 1;
            thread::yield_now();
        } else {
            parker.park(rt);
            looks = 0;
        }
    }
}

/// Runs the members, each in a thread of its own, until the bell says that no more calls come. If no thread can be
/// started, they run one after the other. In a `thread::join` with the caller, this must be the first closure.
/// `thread::join` runs it in a new thread; if no thread can be started, it runs after the second closure.
pub fn serve_all<W: Work + Send + Drop, G: Gate + Sync, R: Threads + Wait + Sync>(
    rt: &R,
    alloc: Global,
    bell: &Bell,
    members: Vec<Member<'_, W, G>>,
) {
    // an error here means that some members never ran; the caller takes their jobs back
    let _ = thread::map_vec(
        rt,
        members,
        &|member: Member<'_, W, G>| serve(rt, alloc, bell, member),
    );
}
