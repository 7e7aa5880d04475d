//! Report texts.
ghost use Rattle.std.specs.Prelude.{◌≡◌, ◌+◌, ◌*◌, ◌≤◌, length, sum_by, IfOk};
ghost use Rattle.std.specs.List.{flat_map, zip};
ghost use Rattle.trace_report.specs.ReportText.{HaveSmallSums, report_text as report_of, station_line, total_line};
ghost use Rattle.trace_report.specs.Writers.{WritesPiece};
ghost use Rattle.trace_report.specs.declared.report.TheConstants.{MAX_REPORT_LINE};
ghost use Rattle.net_model.specs.Sites.{as_site};

use crate::pieces::{put, put_count, put_name};
use net_model::{Model, Station};
use sim_base::{Figures, NoMemory};
use std::alloc::Global;

/// The maximum number of bytes in a line of a report.
pub(crate) const MAX_REPORT_LINE: usize = 128;

// Writes the line of a station.
fn write_figures(bytes: &mut [u8], at: usize, station: &Station, figures: &Figures) -> usize
    requires free { at + MAX_REPORT_LINE ≤ length bytes.old }
    ensures written { WritesPiece (station_line (as_site station.now) figures.now) MAX_REPORT_LINE
        at result bytes.old bytes.new }
{
    let at = put_name(bytes, at, &station.name);
    let at = put_count(bytes, at, b" copies=", figures.copies);
    let at = put_count(bytes, at, b" handled=", figures.handled);
    let at = put_count(bytes, at, b" alone=", figures.alone);
    put(bytes, at, b"\n")
}

// Writes the lines of all stations, one after the other.
fn write_stations(bytes: &mut [u8], start: usize, model: &Model, figures: &[Figures]) -> usize
    requires all { length figures.now ≡ length model.now.sites }
    requires free { start + MAX_REPORT_LINE * length model.now.sites ≤ length bytes.old }
    ensures written { WritesPiece
        (flat_map (λ beside. station_line beside.0 beside.1) (zip model.now.sites figures.now))
        (MAX_REPORT_LINE * length model.now.sites) start result bytes.old bytes.new }
{
    let mut at = start;
    for s in 0..model.len() {
        at = write_figures(bytes, at, model.station(s + 1), &figures[s as usize]);
    }
    at
}

// The number of messages that all copies handled.
fn handled_in_all(figures: &[Figures]) -> u64
    requires sums { HaveSmallSums figures.now }
    ensures value { result ≡ sum_by (λ f. f.handled) figures.now }
{
    figures.iter().map(|f| f.handled).sum()
}

// The number of messages that the clones would have handled alone.
fn alone_in_all(figures: &[Figures]) -> u64
    requires sums { HaveSmallSums figures.now }
    ensures value { result ≡ sum_by (λ f. f.alone) figures.now }
{
    figures.iter().map(|f| f.alone).sum()
}

// Writes the line of the sums.
fn write_total(bytes: &mut [u8], at: usize, figures: &[Figures]) -> usize
    requires sums { HaveSmallSums figures.now }
    requires free { at + MAX_REPORT_LINE ≤ length bytes.old }
    ensures written { WritesPiece (total_line figures.now) MAX_REPORT_LINE at result bytes.old bytes.new }
{
    let at = put_count(bytes, at, b"total handled=", handled_in_all(figures));
    let at = put_count(bytes, at, b" alone=", alone_in_all(figures));
    put(bytes, at, b"\n")
}

/// The report text: the figures of each station, and then the sums.
pub fn report_text(alloc: Global, model: &Model, figures: &[Figures]) -> Result<Vec<u8>, NoMemory>
    requires all { length figures.now ≡ length model.now.sites }
    requires sums { HaveSmallSums figures.now }
    ensures { IfOk result (λ text. text.items ≡ report_of model.now figures.now) }
{
    let mut text = vec![in alloc; 0u8; MAX_REPORT_LINE * (model.len() as usize + 2)]?;
    let at = put(&mut text, 0, b"report\n");
    let at = write_stations(&mut text, at, model, figures);
    let end = write_total(&mut text, at, figures);
    text.truncate(end);
    Ok(text)
}
