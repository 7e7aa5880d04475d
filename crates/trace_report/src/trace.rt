//! Trace texts.
ghost use Rattle.std.specs.Prelude.{◌≡◌, IfOk};
ghost use Rattle.trace_report.specs.TraceText.{trace_text as trace_of};

use crate::line::{MAX_LINE, write_line};
use crate::names::Names;
use net_model::Model;
use sim_base::{Entry, Name, NoMemory};
use std::alloc::Global;

/// The trace text of a clone: its name, and a line for each message that it handled.
///
/// A number that is not a station's, 0 or past the last, is written as `analyst`. In a run senders are stations or 0;
/// receivers and sources of jobs are stations.
pub fn trace_text(
    alloc: Global,
    model: &Model,
    name: &Name,
    entries: &[Entry],
) -> Result<Vec<u8>, NoMemory>
    ensures value { IfOk result (λ text. text.items ≡ trace_of model.now name.now entries.now) }
{
    let names = Names::of(model);
    let mut text = Vec::from_slice(alloc, b"clone ")?;
    text.extend_from_slice(name.as_bytes())?;
    text.extend_from_slice(b"\n")?;
    let mut page = [0u8; MAX_LINE];
    for entry in entries {
        let end = write_line(&mut page, 0, model, &names, entry);
        text.extend_from_slice(&page[..end])?;
    }
    Ok(text)
}
