//! Tests that merge logs, compared with a sort.
ghost use Rattle.std.specs.Prelude.{◌≡◌, ◌≤◌, length};
ghost use Rattle.trace_writer.specs.FixedTrees.{IsFixedCount};

use log_chain::Log;
use sim_base::{Entry, Key, Line, Msg, NoMemory, Payload};
use std::alloc::Global;
use std::test::Fail;
use trace_writer::{Cursor, NO_WORD};

struct Row {
    shows: &'static str,
    /// Time, sender and number of each entry, log after log
    logs: &'static [&'static [(u64, u32, u64)]],
}

const ROWS: &[Row] = &[
    Row {
        shows: "three logs, of one time, and of one time and sender",
        logs: &[
            &[(1, 1, 0), (5, 2, 7), (9, 1, 3)],
            &[(1, 0, 0), (5, 2, 6), (5, 3, 0)],
            &[(1, 2, 0), (5, 1, 9)],
        ],
    },
    Row {
        shows: "an empty log between two, one of them with all that comes last",
        logs: &[
            &[(7, 1, 0), (8, 1, 1)],
            &[],
            &[(1, 2, 0), (2, 2, 1), (3, 2, 2)],
        ],
    },
    Row {
        shows: "equal keys go by the place of their log",
        logs: &[&[(3, 1, 1)], &[(3, 1, 1), (4, 1, 2)], &[(3, 1, 1)]],
    },
    Row {
        shows: "the greatest key of a packed entry",
        logs: &[
            &[(1_073_741_823, 126, 2_097_151)],
            &[(1_073_741_823, 126, 2_097_150)],
            &[(1_073_741_822, 126, 2_097_151)],
        ],
    },
];

/// An entry with this key, from the log at a place.
fn entry(key: Key, place: u32) -> Entry {
    Entry {
        msg: Msg {
            key,
            to: place,
            payload: Payload::Tick,
        },
        line: Line::Passed {
            passed: u64::from(place),
        },
    }
}

/// A log of these keys.
fn log_of(alloc: Global, keys: &[(u64, u32, u64)], place: u32) -> Result<Log, NoMemory> {
    let mut log = Log::new(alloc);
    for &(time, sender, number) in keys {
        let key = Key {
            time,
            sender,
            number,
        };
        log.push(entry(key, place))?;
    }
    Ok(log)
}

/// Puts all of the logs into a cursor, if their keys fit 64 bits.
fn fill<'a, const COUNT: usize>(cursor: &mut Cursor<'a, COUNT>, logs: &'a [Log]) -> bool
    requires places { length logs.now ≤ cursor.old.most }
    ensures most { cursor.new.most ≡ cursor.old.most }
{
    cursor.clear();
    for log in logs {
        if !log.is_packed() {
            return false;
        }
        cursor.add(log.walk_from(0));
    }
    true
}

/// Whether a cursor returns these keys next, each from the log at this place.
fn gives<const COUNT: usize>(cursor: &mut Cursor<'_, COUNT>, want: &[(Key, u32)]) -> bool
    ensures most { cursor.new.most ≡ cursor.old.most }
{
    for pair in want {
        if cursor.least() >= NO_WORD {
            return false;
        }
        let entry = cursor.take().entry();
        if (entry.msg.key, entry.msg.to) != *pair {
            return false;
        }
    }
    true
}

/// Adds the keys of a log, each with the place of the log.
fn add_keys(found: &mut Vec<(Key, u32)>, log: &Log) -> Result<(), NoMemory> {
    let mut walk = log.walk_from(0);
    for _ in 0..log.len() {
        if let Some(entry) = walk.next() {
            found.push((entry.msg.key, entry.msg.to))?;
        }
    }
    Ok(())
}

/// The sorted keys of all logs, each with the place of its log.
fn sort_keys(alloc: Global, logs: &[Log]) -> Result<Vec<(Key, u32)>, NoMemory> {
    let mut found = Vec::new(alloc);
    for log in logs {
        add_keys(&mut found, log)?;
    }
    found.sort()?;
    Ok(found)
}

/// Whether a cursor of these logs returns these keys, and then ends.
fn gives_all<'a, const COUNT: usize>(
    cursor: &mut Cursor<'a, COUNT>,
    logs: &'a [Log],
    want: &[(Key, u32)],
) -> bool
    requires places { length logs.now ≤ cursor.old.most }
{
    fill(cursor, logs) && gives(cursor, want) && cursor.least() == NO_WORD
}

/// Whether a cursor of this size returns the sorted keys.
fn merges<const COUNT: usize>(alloc: Global, logs: &[Log]) -> Result<bool, NoMemory>
    requires fixed { IsFixedCount COUNT }
{
    if logs.len() > COUNT {
        return Ok(false);
    }
    let want = sort_keys(alloc, logs)?;
    let mut cursor: Cursor<'_, COUNT> = Cursor::new(alloc, logs.len())?;
    Ok(gives_all(&mut cursor, logs, want.as_slice()))
}

/// A log for each of these lists of keys, of which there are at most 64.
fn logs_of(alloc: Global, rows: &[&[(u64, u32, u64)]]) -> Result<Vec<Log>, NoMemory> {
    let mut logs = Vec::new(alloc);
    for (place, keys) in rows.iter().enumerate() {
        logs.push(log_of(alloc, keys, place.min(63) as u32 + 1)?)?;
    }
    Ok(logs)
}

#[test]
fn a_cursor_merges_as_a_sort_does(rt: HostRuntime) -> Result<(), Fail> {
    for row in ROWS {
        let logs = logs_of(rt.alloc(), row.logs)?;
        assert!(rt; merges::<8>(rt.alloc(), logs.as_slice())?, "{}", row.shows);
        assert!(rt; merges::<16>(rt.alloc(), logs.as_slice())?, "{}", row.shows);
        assert!(rt; merges::<64>(rt.alloc(), logs.as_slice())?, "{}", row.shows);
    }
    Ok(())
}
