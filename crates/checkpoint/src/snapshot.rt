//! A snapshot of one clone's run at a front.
ghost use Rattle.std.specs.Prelude.{◌≡◌, ◌-◌, ◌≤◌, length, slice_get, Some};
ghost use Rattle.checkpoint.specs.TraceLines.{lines_text};

use crate::trace_lines::TraceLines;
use sim_base::{Msg, Name};
use stations::Saved;
use std::marker::Model;

/// A snapshot: what a run of one clone needs in order to go on from a front, and the lines of its trace so far.
#[derive(Drop)]
pub struct Snapshot {
    who: Name,
    front: u64,
    end: Option<u64>,
    saved: Vec<Saved>,
    due: Vec<Msg>,
    lines: TraceLines,
}

impl Model for Snapshot {
    ghost use Rattle.checkpoint.specs.Snapshots.{SnapshotView};

    ghost Value = { SnapshotView };

    ghost view = { λ s. record {
      who = s.who;
      front = s.front;
      end = s.end;
      saved = s.saved.items;
      due = s.due.items;
      lines = s.lines;
    } };
}

impl Snapshot {
    /// The snapshot with these parts: the clone's name, the front and the clone's end, the saved data of the stations
    /// in order, the pending messages in order, and the trace lines.
    pub fn from_parts(
        who: Name,
        front: u64,
        end: Option<u64>,
        saved: Vec<Saved>,
        due: Vec<Msg>,
        lines: TraceLines,
    ) -> Snapshot
        ensures value { result ≡ record {
          who = who;
          front = front;
          end = end;
          saved = saved.items;
          due = due.items;
          lines = lines;
        } }
    {
        Snapshot {
            who,
            front,
            end,
            saved,
            due,
            lines,
        }
    }

    /// The clone's name.
    pub fn who(&self) -> Name
        ensures value { result ≡ self.now.who }
    {
        self.who
    }

    /// The front: all messages before this time were handled.
    pub fn front(&self) -> u64
        ensures value { result ≡ self.now.front }
    {
        self.front
    }

    /// The clone's end, if it has one.
    pub fn end(&self) -> Option<u64>
        ensures value { result ≡ self.now.end }
    {
        self.end
    }

    /// The saved data of a station, by the station's number from 1.
    pub fn saved(&self, station: u32) -> &Saved
        requires low { 1 ≤ station }
        requires high { station ≤ length self.now.saved }
        ensures value { slice_get self.now.saved (station - 1) ≡ Some result.now }
    {
        &self.saved[station as usize - 1]
    }

    /// The saved data of all stations, in order.
    pub fn all_saved(&self) -> &[Saved]
        ensures value { result.now ≡ self.now.saved }
    {
        self.saved.as_slice()
    }

    /// The pending messages, in order.
    pub fn due(&self) -> &[Msg]
        ensures value { result.now ≡ self.now.due }
    {
        self.due.as_slice()
    }

    /// The text of the trace lines: each with its line feed.
    pub fn lines(&self) -> &[u8]
        ensures value { result.now ≡ lines_text self.now.lines }
    {
        self.lines.as_bytes()
    }

    /// The number of trace lines.
    pub fn line_count(&self) -> usize
        ensures value { result ≡ length self.now.lines }
    {
        self.lines.len()
    }
}
