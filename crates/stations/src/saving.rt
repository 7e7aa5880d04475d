//! Saves the state of a station as plain data.
ghost use Rattle.std.specs.Prelude.{◌≡◌, IfOk};
ghost use Rattle.stations.specs.Saving.{shape_of as shape_of', saved_of};

use crate::job_line::JobLine;
use crate::job_queue::JobQueue;
use crate::kind_state::KindState;
use crate::saved::{Saved, Shape};
use crate::state::{State, copy_weights};
use sim_base::NoMemory;
use std::alloc::Global;

fn line_of(queue: &JobQueue, alloc: Global) -> Result<JobLine, NoMemory>
    ensures { IfOk result (λ line. line ≡ queue.now) }
{
    let mut jobs = Vec::with_capacity(alloc, queue.len())?;
    for place in 0..queue.len() {
        jobs.push(queue.get(place))?;
    }
    Ok(JobLine::of(jobs))
}

fn shape_of(kind: &KindState, alloc: Global) -> Result<Shape, NoMemory>
    ensures { IfOk result (λ s. s ≡ shape_of' kind.now) }
{
    match kind {
        KindState::Source(source) => Ok(Shape::Source {
            lo: source.lo,
            hi: source.hi,
            sent: source.sent,
        }),
        KindState::Server(server) => Ok(Shape::Server {
            servers: server.servers,
            room: server.room,
            lo: server.lo,
            hi: server.hi,
            busy: server.busy,
            done: server.done,
            lost: server.lost,
            line: line_of(&server.waiting, alloc)?,
        }),
        KindState::Delay(delay) => Ok(Shape::Delay {
            lo: delay.lo,
            hi: delay.hi,
            passed: delay.passed,
        }),
        KindState::Router(router) => Ok(Shape::Router {
            passed: router.passed,
            weights: copy_weights(router.weights.as_slice()),
        }),
        KindState::Sink(sink) => Ok(Shape::Sink {
            got: sink.got,
            stay: sink.stay,
        }),
    }
}

impl State {
    /// The state as plain data.
    pub fn saved(&self, alloc: Global) -> Result<Saved, NoMemory>
        ensures { IfOk result (λ saved. saved ≡ saved_of self.now) }
    {
        Ok(Saved {
            next: self.sender().next,
            drawn: self.sender().draws.drawn(),
            handled: self.handled(),
            shape: shape_of(self.kind(), alloc)?,
        })
    }
}
