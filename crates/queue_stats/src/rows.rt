//! The statistics of a study: the queue statistics of every clone and server, from a world at the horizon.
//!
//! A world at the horizon has the log of each clone at each station. Each log of a server becomes one row. Rows come
//! clone by clone in creation order, and within a clone in file order. A clone that ends before the horizon has the
//! statistics until its end.
//!
//! ```text
//! world at the horizon                        stats
//!   base:  gate  desk  out       row          base desk arrived=2 lost=0 done=2 most=1 present=9 waited=1 longest=1
//!   fast:  gate  desk  out       row          fast desk arrived=2 lost=0 done=2 most=1 present=7 waited=- longest=-
//! ```
//!
//! ```text
//! let text = make_statistics(alloc, &model, &world)?;
//! ```
//!
//! The first clone with a log costs one pass over it, or three if waits are reported. Each later clone with the same
//! log reuses the figures of the first one's row. It moves them to its own end in a few steps. The rows and their text
//! take memory; out of memory is the only error.
//!
//! The promise: **the text is the definition's**. It is the text of `specs/Rows.antt`. Each figure is computed from the
//! log that the clone has if it runs alone, so it obeys the laws of queues.
ghost use Rattle.std.specs.Prelude.{◌≡◌, ◌+◌, ◌-◌, ◌*◌, ◌<◌, ◌≤◌, length, take, min, unwrap_or, slice_get, Some, true};
ghost use Rattle.std.specs.Prelude.{IfOk, OnOk};
ghost use Rattle.sim_base.specs.Clones.{clone_at};
ghost use Rattle.net_model.specs.Net.{HasStation, site_of};
ghost use Rattle.net_model.specs.Rules.{IsNet};
ghost use Rattle.stations.specs.Runs.{log_at};
ghost use Rattle.queue_stats.specs.declared.text.StatRow.{StatRow as StatRowOf};
ghost use Rattle.queue_stats.specs.Laws.{is_server};
ghost use Rattle.queue_stats.specs.Rows.{IsAtHorizon, row, rows, rows_before, statistics};
ghost use Rattle.queue_stats.specs.Rows.{server_count as server_count_of};

use crate::{StatRow, Stats, stats_of, stats_text};
use log_chain::Log;
use net_model::{Kind, Model};
use sim_base::NoMemory;
use std::alloc::Global;
use world_core::World;

// Whether a station is a server.
fn is_server_at(model: &Model, station: u32) -> bool
    requires is_station { HasStation model.now station }
    ensures value { result ≡ is_server (site_of model.now station).kind }
{
    matches!(model.station(station).kind, Kind::Server { .. })
}

// The number of servers.
fn server_count(model: &Model) -> usize
    ensures value { result ≡ server_count_of model.now (length model.now.sites) }
{
    let mut count: usize = 0;
    for s in 0..model.len() {
        count += usize::from(is_server_at(model, s + 1));
    }
    count
}

// The time until which a clone is simulated: its end or the horizon, whichever is earlier.
fn simulated_until(model: &Model, end: Option<u64>) -> u64
    ensures value { result ≡ min model.now.horizon (unwrap_or end model.now.horizon) }
{
    match end {
        Some(end) => end.min(model.horizon()),
        None => model.horizon(),
    }
}

// The statistics in the row of the same server as the next row, `clones` clones earlier.
fn earlier_stats(rows: &[StatRow], servers: usize, clones: u32) -> Stats
    requires places_min { 1 ≤ clones * servers }
    requires places_max { clones * servers ≤ length rows.now }
    ensures value { (r : StatRowOf) → slice_get rows.now (length rows.now - clones * servers) ≡ Some r
        → result ≡ r.stats }
{
    rows[rows.len() - clones as usize * servers].stats
}

// The statistics of a server in a clone, from those of a clone with the same log there.
fn stats_like(
    stats: Stats,
    model: &Model,
    world: &World,
    other: u32,
    clone: u32,
    station: u32,
) -> Stats
    requires valid { IsNet model.now }
    requires at_horizon { IsAtHorizon model.now world.now }
    requires in_range { clone < length world.now.clones }
    requires other_in_range { other < length world.now.clones }
    requires is_station { HasStation model.now station }
    requires server { is_server (site_of model.now station).kind ≡ true }
    requires same_log { log_at model.now (clone_at world.now.clones other) station model.now.horizon
        ≡ log_at model.now (clone_at world.now.clones clone) station model.now.horizon }
    requires entries_max { length (log_at model.now (clone_at world.now.clones clone) station model.now.horizon)
        ≤ model.now.limit }
    requires stats { stats ≡ (row model.now (clone_at world.now.clones other) station).stats }
    ensures value { result ≡ (row model.now (clone_at world.now.clones clone) station).stats }
{
    let lists = world.lists();
    let from = simulated_until(model, lists.end_of(other));
    let until = simulated_until(model, lists.end_of(clone));
    stats.with_end(from, until)
}

// The statistics of a server in a clone, from its log.
fn stats_along(log: &Log, model: &Model, world: &World, clone: u32, station: u32) -> Stats
    requires at_horizon { IsAtHorizon model.now world.now }
    requires in_range { clone < length world.now.clones }
    requires is_station { HasStation model.now station }
    requires server { is_server (site_of model.now station).kind ≡ true }
    requires of_clone { log.now ≡ log_at model.now (clone_at world.now.clones clone) station model.now.horizon }
    requires entries_max { length log.now ≤ model.now.limit }
    ensures value { result ≡ (row model.now (clone_at world.now.clones clone) station).stats }
{
    let until = simulated_until(model, world.lists().end_of(clone));
    stats_of(model, station, log, until)
}

// The statistics of a server in a clone, whose row comes after these rows. Clones that share a log share the pass over
// it, which is made for the first of them.
fn next_stats(
    rows: &[StatRow],
    servers: usize,
    model: &Model,
    world: &World,
    clone: u32,
    s: u32,
) -> Stats
    requires valid { IsNet model.now }
    requires at_horizon { IsAtHorizon model.now world.now }
    requires in_range { clone < length world.now.clones }
    requires s_max { s < length model.now.sites }
    requires server { is_server (site_of model.now (s + 1)).kind ≡ true }
    requires servers { servers ≡ server_count_of model.now (length model.now.sites) }
    requires so_far { rows.now ≡ rows_before model.now world.now.clones clone s }
    ensures value { result ≡ (row model.now (clone_at world.now.clones clone) (s + 1)).stats }
{
    let log = world.log(clone, s + 1);
    let first = world.first_with(clone, s + 1);
    if first < clone {
        let stats = earlier_stats(rows, servers, clone - first);
        stats_like(stats, model, world, first, clone, s + 1)
    } else {
        stats_along(log, model, world, clone, s + 1)
    }
}

// Appends the row of a station in a clone if the station is a server.
fn push_station(
    out: &mut Vec<StatRow>,
    servers: usize,
    model: &Model,
    world: &World,
    clone: u32,
    s: u32,
) -> Result<(), NoMemory>
    requires valid { IsNet model.now }
    requires at_horizon { IsAtHorizon model.now world.now }
    requires in_range { clone < length world.now.clones }
    requires s_max { s < length model.now.sites }
    requires servers { servers ≡ server_count_of model.now (length model.now.sites) }
    requires so_far { out.old.items ≡ rows_before model.now world.now.clones clone s }
    ensures value { OnOk result (out.new.items ≡ rows_before model.now world.now.clones clone (s + 1)) }
{
    if !is_server_at(model, s + 1) {
        return Ok(());
    }
    let row = StatRow {
        who: world.lists().name(clone),
        station: s + 1,
        stats: next_stats(out.as_slice(), servers, model, world, clone, s),
    };
    out.push(row)?;
    Ok(())
}

// Appends the rows of all servers in a clone.
fn push_clone(
    out: &mut Vec<StatRow>,
    servers: usize,
    model: &Model,
    world: &World,
    clone: u32,
) -> Result<(), NoMemory>
    requires at_horizon { IsAtHorizon model.now world.now }
    requires in_range { clone < length world.now.clones }
    requires servers { servers ≡ server_count_of model.now (length model.now.sites) }
    requires so_far { out.old.items ≡ rows model.now (take clone world.now.clones) }
    ensures value { OnOk result (out.new.items ≡ rows model.now (take (clone + 1) world.now.clones)) }
{
    for s in 0..model.len() {
        push_station(out, servers, model, world, clone, s)?;
    }
    Ok(())
}

/// Makes the text of the statistics of all clones of a world at the horizon. Out of memory is the only error.
pub fn make_statistics(alloc: Global, model: &Model, world: &World) -> Result<Vec<u8>, NoMemory>
    requires at_horizon { IsAtHorizon model.now world.now }
    ensures value { IfOk result (λ text. text.items ≡ statistics model.now world.now.clones) }
{
    let servers = server_count(model);
    let mut rows = Vec::new(alloc);
    for clone in 0..world.lists().len() {
        push_clone(&mut rows, servers, model, world, clone)?;
    }
    stats_text(alloc, model, rows.as_slice())
}
