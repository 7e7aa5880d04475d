//! The machine that reads a snapshot: a reader takes the lines of a text one after the other.
ghost use Rattle.std.specs.Prelude.{◌≡◌, ◌<◌, ◌++◌, ◌∷◌, [], length, option_map, map, Some, None, IfOk, IfSome};
ghost use Rattle.std.specs.Prelude.{MatchBool};
ghost use Rattle.std.specs.List.{list_all};
ghost use Rattle.std.specs.Prelude.{OnOk, ◌+◌, ◌≤◌, ◌^◌, ◌==◌, if◌then◌else◌};
ghost use Rattle.net_model.specs.Net.{HasStation};
ghost use Rattle.net_model.specs.declared.limits.TheConstants.{MAX_LINKS};
ghost use Rattle.snapshot_lines.specs.Forms.{line_says};
ghost use Rattle.snapshot_lines.specs.Grammar.{head_line, message_line, pending_line, station_line, trace_line};
ghost use Rattle.checkpoint.specs.TraceLines.{is_printed as is_printed', is_trace_line as is_trace_line'};
ghost use Rattle.snapshot_text.specs.Reading.{after_line, at_lines, at_messages, begun, may_end, with_line};
ghost use Rattle.snapshot_text.specs.Reading.{with_message, with_station};
ghost use Rattle.snapshot_text.specs.declared.place.Place.TheVariants.{Stations};
ghost use Rattle.snapshot_text.specs.SnapshotTexts.{links_of};

use crate::place::Place;
use checkpoint::{MAX_TRACE_LINE, Snapshot, TraceLines};
use net_model::Model;
use sim_base::{Msg, Name, NoMemory};
use snapshot_lines::read_lines::{read_head, read_message, read_pending, read_station, read_trace};
use stations::Saved;
use std::alloc::Global;

/// A reader of a snapshot after its first line.
#[derive(Drop)]
pub struct Reader {
    place: Place,
    who: Name,
    front: u64,
    end: Option<u64>,
    saved: Vec<Saved>,
    due: Vec<Msg>,
    lines: TraceLines,
}

impl std::marker::Model for Reader {
    ghost use Rattle.snapshot_text.specs.Reading.{ReaderView};

    ghost Value = { ReaderView };

    ghost view = { λ r. record {
      place = r.place;
      snapshot = record {
        who = r.who;
        front = r.front;
        end = r.end;
        saved = r.saved.items;
        due = r.due.items;
        lines = r.lines;
      };
    } };
}

fn push_saved(saved: &mut Vec<Saved>, x: Saved) -> Result<(), NoMemory>
    ensures ok { OnOk result (saved.new.items ≡ saved.old.items ++ x ∷ []) }
{
    saved.push(x)?;
    Ok(())
}

fn push_message(due: &mut Vec<Msg>, m: Msg) -> Result<(), NoMemory>
    ensures ok { OnOk result (due.new.items ≡ due.old.items ++ m ∷ []) }
{
    due.push(m)?;
    Ok(())
}

fn is_printed(byte: u8) -> bool
    ensures value { result ≡ is_printed' byte }
{
    32 <= byte && byte <= 126
}

fn are_printed(line: &[u8]) -> bool
    ensures value { result ≡ list_all is_printed' line.now }
{
    line.iter().all(|b| is_printed(*b))
}

fn is_trace_line(line: &[u8]) -> bool
    ensures value { result ≡ is_trace_line' line.now }
{
    (1 <= line.len() && line.len() <= MAX_TRACE_LINE) && are_printed(line)
}

fn link_count(model: &Model, station: u32) -> usize
    requires is_station { HasStation model.now station }
    ensures value { result ≡ links_of model.now station }
    ensures at_most { result ≤ MAX_LINKS }
{
    model.station(station).links.len()
}

impl Reader {
    /// The reader after the first line.
    pub fn begin(alloc: Global, line: &[u8]) -> Option<Reader>
        ensures value { result ≡ option_map begun (line_says head_line line.now) }
    {
        let head = read_head(line)?;
        Some(Reader {
            place: Place::Stations,
            who: head.who,
            front: head.front,
            end: head.end,
            saved: Vec::new(alloc),
            due: Vec::new(alloc),
            lines: TraceLines::new(alloc),
        })
    }

    /// Takes the next line, and returns whether it is what it must be.
    pub fn take_line(&mut self, alloc: Global, model: &Model, line: &[u8]) -> Result<bool, NoMemory>
        ensures value { IfOk result (λ ok. MatchBool ok
            (after_line model.now self.old.place self.old.snapshot line.now ≡ Some self.new)
            (after_line model.now self.old.place self.old.snapshot line.now ≡ None)) }
    {
        match self.place {
            Place::Stations if self.saved.len() < model.len() as usize => {
                self.take_station(alloc, model, line)
            }
            Place::Stations => Ok(self.begin_messages(line)),
            Place::Messages { left: 0 } => Ok(self.begin_lines(line)),
            Place::Messages { left } => self.take_message(line, left),
            Place::Lines { left } => self.take_trace_line(line, left),
        }
    }

    /// Whether the text may end here.
    pub fn may_end(&self) -> bool
        ensures value { result ≡ may_end self.now.place }
    {
        match self.place {
            Place::Lines { left } => left == 0,
            _ => false,
        }
    }

    /// The snapshot that was read.
    pub fn snapshot(self) -> Snapshot
        ensures value { result ≡ self.snapshot }
    {
        Snapshot::from_parts(
            self.who, self.front, self.end, self.saved, self.due, self.lines,
        )
    }

    // The line of the next station.
    fn take_station(&mut self, alloc: Global, model: &Model, line: &[u8]) -> Result<bool, NoMemory>
        requires place { self.old.place ≡ Stations }
        requires more { length self.old.snapshot.saved < length model.now.sites }
        requires at_most { length model.now.sites < 2 ^ 32 }
        ensures value { IfOk result (λ ok. MatchBool ok
            (option_map (with_station self.old.snapshot) (line_says (station_line (length self.old.snapshot.saved + 1)
            (links_of model.now (length self.old.snapshot.saved + 1))) line.now) ≡ Some self.new)
            (line_says (station_line (length self.old.snapshot.saved + 1)
            (links_of model.now (length self.old.snapshot.saved + 1))) line.now ≡ None)) }
    {
        let station = self.saved.len() as u32 + 1;
        let links = link_count(model, station);
        let Some(saved) = read_station(alloc, line, station, links)? else {
            return Ok(false);
        };
        push_saved(&mut self.saved, saved)?;
        Ok(true)
    }

    // pending N
    fn begin_messages(&mut self, line: &[u8]) -> bool
        ensures value { MatchBool result
            (option_map (at_messages self.old.snapshot) (line_says pending_line line.now) ≡ Some self.new)
            (line_says pending_line line.now ≡ None) }
    {
        let Some(left) = read_pending(line) else {
            return false;
        };
        self.place = Place::Messages { left };
        true
    }

    // trace N
    fn begin_lines(&mut self, line: &[u8]) -> bool
        ensures value { MatchBool result
            (option_map (at_lines self.old.snapshot) (line_says trace_line line.now) ≡ Some self.new)
            (line_says trace_line line.now ≡ None) }
    {
        let Some(left) = read_trace(line) else {
            return false;
        };
        self.place = Place::Lines { left };
        true
    }

    // A pending message, of this number that are left.
    fn take_message(&mut self, line: &[u8], left: u64) -> Result<bool, NoMemory>
        requires nonempty { 0 < left }
        ensures value { IfOk result (λ ok. MatchBool ok
            (option_map (with_message self.old.snapshot left) (line_says message_line line.now) ≡ Some self.new)
            (line_says message_line line.now ≡ None)) }
    {
        let Some(message) = read_message(line) else {
            return Ok(false);
        };
        push_message(&mut self.due, message)?;
        self.place = Place::Messages { left: left - 1 };
        Ok(true)
    }

    // A trace line, of this number that are left.
    #[tactic(auto, using(crate::proofs::TextLaws::trace_line_is_one))]
    fn take_trace_line(&mut self, line: &[u8], left: u64) -> Result<bool, NoMemory>
        ensures value { IfOk result (λ ok. MatchBool ok
            ((if left == 0 then None else (if is_trace_line' line.now
            then Some (with_line self.old.snapshot left line.now) else None))
            ≡ Some self.new)
            ((if left == 0 then None else (if is_trace_line' line.now
            then Some (with_line self.old.snapshot left line.now) else None))
            ≡ None)) }
    {
        if left == 0 || !is_trace_line(line) {
            return Ok(false);
        }
        self.lines.push(line)?;
        self.place = Place::Lines { left: left - 1 };
        Ok(true)
    }
}
