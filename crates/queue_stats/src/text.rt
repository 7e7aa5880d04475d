//! The text of queue statistics.
ghost use Rattle.std.specs.Prelude.{◌≡◌, ◌++◌, OnOk, IfOk};
ghost use Rattle.std.specs.List.{All, flat_map};
ghost use Rattle.net_model.specs.Net.{HasStation};
ghost use Rattle.queue_stats.specs.StatsText.{waits_text, stats_line, stats_text as stats_text_of};

use crate::pieces::{push, push_figure, push_name};
use crate::stats::Stats;
use crate::waits::Waits;
use net_model::Model;
use sim_base::{Name, NoMemory};
use std::alloc::Global;

/// The statistics of one server in one clone, with the names for its line.
#[derive(Clone, Copy, Debug)]
pub struct StatRow {
    /// The clone's name.
    pub who: Name,
    /// The server's number, from 1.
    pub station: u32,
    /// Its statistics.
    pub stats: Stats,
}

// Appends the waits, or a `-` in place of each figure.
fn push_waits(out: &mut Vec<u8>, waits: &Option<Waits>) -> Result<(), NoMemory>
    ensures value { OnOk result (out.new.items ≡ out.old.items ++ waits_text waits.now) }
{
    match waits {
        None => push(out, b" waited=- longest=-"),
        Some(waits) => {
            push_figure(out, b" waited=", waits.waited)?;
            push_figure(out, b" longest=", waits.longest)
        }
    }
}

// Appends the line of a row.
fn push_row(out: &mut Vec<u8>, model: &Model, row: &StatRow) -> Result<(), NoMemory>
    requires is_station { HasStation model.now row.now.station }
    ensures value { OnOk result (out.new.items ≡ out.old.items ++ stats_line model.now row.now) }
{
    push_name(out, &row.who)?;
    push(out, b" ")?;
    push_name(out, &model.station(row.station).name)?;
    push_figure(out, b" arrived=", row.stats.arrived)?;
    push_figure(out, b" lost=", row.stats.lost)?;
    push_figure(out, b" done=", row.stats.done)?;
    push_figure(out, b" most=", row.stats.most)?;
    push_figure(out, b" present=", row.stats.present)?;
    push_waits(out, &row.stats.waits)?;
    push(out, b"\n")
}

// Appends the lines of all rows.
fn push_rows(out: &mut Vec<u8>, model: &Model, rows: &[StatRow]) -> Result<(), NoMemory>
    requires are_stations { All (λ row. HasStation model.now row.station) rows.now }
    ensures value { OnOk result (out.new.items ≡ out.old.items ++ flat_map (stats_line model.now) rows.now) }
{
    'rows: for row in rows {
        push_row(out, model, row)?;
    }
    Ok(())
}

/// Makes the text of some rows: the heading `stats`, and a line for each row. Out of memory is the only error.
pub fn stats_text(alloc: Global, model: &Model, rows: &[StatRow]) -> Result<Vec<u8>, NoMemory>
    requires are_stations { All (λ row. HasStation model.now row.station) rows.now }
    ensures value { IfOk result (λ text. text.items ≡ stats_text_of model.now rows.now) }
{
    let mut out = Vec::new(alloc);
    push(&mut out, b"stats\n")?;
    push_rows(&mut out, model, rows)?;
    Ok(out)
}
