//! Tests whether plain data fits a station, and restores the station's state from it.
ghost use Rattle.std.specs.Prelude.{◌≡◌, ◌+◌, ◌≤◌, length, Some, None, IfOk, IfErr, OnOk, true, false};
ghost use Rattle.std.specs.List.{list_all};
ghost use Rattle.net_model.specs.Net.{HasStation, is_source, site_of};
ghost use Rattle.net_model.specs.Rules.{is_within};
ghost use Rattle.net_model.specs.Sites.{as_site};
ghost use Rattle.net_model.specs.declared.limits.TheConstants.{MAX_WEIGHT};
ghost use Rattle.stations.specs.Fits.{FitsState, SuitsNet};
ghost use Rattle.stations.specs.Fitting.{is_job_of, fits_shape, fits_saved};
ghost use Rattle.stations.specs.Saving.{restored_server, restored_kind, restored};

use crate::job_line::JobLine;
use crate::job_queue::JobQueue;
use crate::kind_state::{DelayState, KindState, RouterState, ServerState, SinkState, SourceState};
use crate::saved::{RestoreFault, Saved, Shape};
use crate::sender::{MAX_SENDS, MAX_STAY_SUM, Sender};
use crate::state::{State, copy_weights};
use net_model::limits::{MAX_JOBS, MAX_ROOM, MAX_SERVERS, MAX_WEIGHT, is_range};
use net_model::{Kind, Model, Station};
use sim_base::{Job, NoMemory};
use sim_draw::Draws;
use std::alloc::Global;

fn is_source_at(model: &Model, station: u32) -> bool
    ensures { result ≡ is_source (site_of model.now station).kind }
{
    if station == 0 || station > model.len() {
        return false;
    }
    match model.station(station).kind {
        Kind::Source { .. } => true,
        _ => false,
    }
}

/// Whether a source of the model may have made the job before the horizon.
pub fn is_job(model: &Model, job: &Job) -> bool
    ensures { result ≡ is_job_of model.now job.now }
{
    is_source_at(model, job.source) && job.count < MAX_JOBS && job.born < model.horizon()
}

fn are_weights(weights: &[u32]) -> bool
    ensures { result ≡ list_all (is_within 1 MAX_WEIGHT) weights.now }
{
    weights
        .iter()
        .all(|weight| 1 <= *weight && u64::from(*weight) <= MAX_WEIGHT)
}

fn is_shape_fit(model: &Model, station: &Station, handled: u64, shape: &Shape) -> bool
    ensures { result ≡ fits_shape model.now (as_site station.now) handled station.now.kind shape.now }
{
    match (station.kind, shape) {
        (Kind::Source { jobs, .. }, Shape::Source { lo, hi, sent }) => is_range(1, *lo, *hi)
            && *sent <= jobs,
        (
            Kind::Server { .. },
            Shape::Server {
                servers,
                room,
                lo,
                hi,
                busy,
                done,
                lost,
                line,
            },
        ) => {
            (1 <= *servers
                && u64::from(*servers) <= MAX_SERVERS
                && (u64::from(*room) <= MAX_ROOM && is_range(1, *lo, *hi)))
                && (*busy <= MAX_SERVERS
                    && line.len() as u64 <= MAX_ROOM
                    && (line.len() == 0 || u64::from(*servers) <= *busy)
                    && (*done <= handled && *lost <= handled && line.are_jobs(model)))
        }
        (Kind::Delay { .. }, Shape::Delay { lo, hi, passed }) => is_range(0, *lo, *hi)
            && *passed <= handled,
        (Kind::Router { .. }, Shape::Router { passed, weights }) => {
            (weights.len() == station.links.len() && are_weights(weights.as_slice()))
                && *passed <= handled
        }
        (Kind::Sink, Shape::Sink { got, stay }) => *got <= handled && *stay < MAX_STAY_SUM,
        _ => false,
    }
}

impl Saved {
    /// Whether the data is a state of this station of the model. Allocates nothing.
    pub fn is_fit(&self, model: &Model, station: u32) -> bool
        requires is_station { HasStation model.now station }
        ensures value { result ≡ fits_saved model.now station self.now }
    {
        let most = MAX_SENDS as u64;
        (self.handled <= model.limit()
            && (self.next <= most * (self.handled + 1) && self.drawn <= most * (self.handled + 1)))
            && is_shape_fit(model, model.station(station), self.handled, &self.shape)
    }
}

fn queue_of(line: &JobLine, alloc: Global) -> Result<JobQueue, NoMemory>
    ensures { IfOk result (λ queue. queue ≡ line.now) }
{
    let mut queue = JobQueue::new(alloc);
    for place in 0..line.len() {
        queue.push(line.get(place))?;
    }
    Ok(queue)
}

// The state of a server of this shape, None if the shape is of another kind.
fn restore_server(alloc: Global, shape: &Shape) -> Result<Option<ServerState>, NoMemory>
    ensures { IfOk result (λ server. server ≡ restored_server shape.now) }
{
    let Shape::Server {
        servers,
        room,
        lo,
        hi,
        busy,
        done,
        lost,
        line,
    } = shape
    else {
        return Ok(None);
    };
    Ok(Some(ServerState {
        servers: *servers,
        room: *room,
        lo: *lo,
        hi: *hi,
        busy: *busy,
        waiting: queue_of(line, alloc)?,
        done: *done,
        lost: *lost,
    }))
}

fn restore_kind(alloc: Global, kind: &Kind, shape: &Shape) -> Result<KindState, RestoreFault>
    ensures ok { IfOk result (λ k. restored_kind kind.now shape.now ≡ Some k) }
    ensures unfit { IfErr result (λ e. e ≡ RestoreFault.Unfit → restored_kind kind.now shape.now ≡ None) }
{
    match (*kind, shape) {
        (Kind::Source { jobs, .. }, Shape::Source { lo, hi, sent }) => Ok(KindState::Source(
            SourceState {
                lo: *lo,
                hi: *hi,
                jobs,
                sent: *sent,
            },
        )),
        (Kind::Server { .. }, _) => match restore_server(alloc, shape) {
            Ok(Some(server)) => Ok(KindState::Server(server)),
            Ok(None) => Err(RestoreFault::Unfit),
            Err(NoMemory) => Err(RestoreFault::NoMemory),
        },
        (Kind::Delay { .. }, Shape::Delay { lo, hi, passed }) => Ok(KindState::Delay(DelayState {
            lo: *lo,
            hi: *hi,
            passed: *passed,
        })),
        (Kind::Router { .. }, Shape::Router { passed, weights }) => Ok(KindState::Router(
            RouterState {
                weights: copy_weights(weights.as_slice()),
                passed: *passed,
            },
        )),
        (Kind::Sink, Shape::Sink { got, stay }) => Ok(KindState::Sink(SinkState {
            got: *got,
            stay: *stay,
        })),
        _ => Err(RestoreFault::Unfit),
    }
}

impl State {
    /// The state of a station, restored from plain data. Its draws continue where they were.
    ///
    /// `Unfit` is returned exactly if the data does not fit this station of the model.
    pub fn restore(
        alloc: Global,
        model: &Model,
        station: u32,
        saved: &Saved,
    ) -> Result<State, RestoreFault>
        // required: the number of a station of the model
        requires is_station { HasStation model.now station }
        // result: the state that the data restores; `Unfit` exactly if the data does not fit
        ensures ok { IfOk result (λ st. restored model.now station saved.now ≡ Some st) }
        ensures fit { OnOk result (fits_saved model.now station saved.now ≡ true) }
        ensures unfit { IfErr result (λ e. e ≡ RestoreFault.Unfit → fits_saved model.now station saved.now ≡ false) }
        ensures tested { IfErr result (λ e. e ≡ RestoreFault.NoMemory → fits_saved model.now station saved.now ≡ true) }
        // invariant: it is a state of this station of the network, within its bounds
        ensures fits { IfOk result (λ st. FitsState st) }
        ensures suits { IfOk result (λ st. SuitsNet model.now st) }
        ensures own { IfOk result (λ st. st.sender.station ≡ station) }
    {
        if !saved.is_fit(model, station) {
            return Err(RestoreFault::Unfit);
        }
        let site = model.station(station);
        let kind = restore_kind(alloc, &site.kind, &saved.shape)?;
        let sender = Sender {
            station,
            next: saved.next,
            draws: Draws::at(model.seed(), site.stream, saved.drawn),
        };
        Ok(State::of(sender, saved.handled, kind))
    }
}
