//! Why a study is not run.
ghost use Rattle.std.specs.Prelude.{◌≡◌, ◌+◌, ◌++◌, ◌≤◌, length};
ghost use Rattle.cloner_top.specs.Stops.{key_part, stop_line, stop_status, model_line};
ghost use Rattle.cloner_top.specs.Stops.{script_line, decision_line, no_clone_line, snapshot_line, watch_line};
ghost use Rattle.cloner_top.specs.Stops.{watches_line};
ghost use Rattle.cloner_top.specs.declared.error_line.TheConstants.{MAX_ERROR_LINE};
ghost use Rattle.net_model.specs.Faults.{fault_key};
ghost use Rattle.net_model.specs.declared.key_text.TheConstants.{MAX_KEY_TEXT_LEN};

use crate::error_line::ErrorLine;
use decision_book::Reply;
use decision_script::ScriptFault;
use net_model::ModelFault;
use sim_base::Name;
use snapshot_text::SnapshotFault;
use watch_points::WatchFault;

/// The error for which a study is not run: the first one, in the order of the statuses.
#[derive(Clone, Copy, Debug, PartialEq, Eq)]
pub enum Stop {
    /// The model's text is not a model.
    BadModel(ModelFault),
    /// The script's text is not a script.
    BadScript(ScriptFault),
    /// A decision is refused: the first one, with its line.
    BadDecision { reply: Reply, line: u32 },
    /// The decisions create no clone of this name.
    NoClone(Name),
    /// The text of the watches is invalid.
    BadWatches(WatchFault),
    /// A watch does not fit the model and the script's clones: the first one, with its line.
    BadWatch { reply: Reply, line: u32 },
    /// The snapshot's text is not a snapshot of the model.
    BadSnapshot(SnapshotFault),
}

// The error line for a refused model.
fn line_of_model(fault: &ModelFault) -> ErrorLine
    ensures { result ≡ model_line fault.now }
{
    let mut line = ErrorLine::new();
    line.push("cloner: model: refusal ");
    line.push_number(fault.number() as u64);
    line.push(" at station ");
    line.push_number(fault.place() as u64);
    push_key(&mut line, fault);
    line.push("\n");
    line
}

// Appends the key that a refusal names, if any.
fn push_key(line: &mut ErrorLine, fault: &ModelFault)
    requires free { length line.old + 5 + MAX_KEY_TEXT_LEN ≤ MAX_ERROR_LINE }
    ensures value { line.new ≡ line.old ++ key_part (fault_key fault.now) }
    ensures length_max { length line.new ≤ length line.old + 5 + MAX_KEY_TEXT_LEN }
{
    if let Some(key) = fault.key() {
        line.push(" key ");
        line.push(key);
    }
}

// The error line for a refused script.
fn line_of_script(fault: &ScriptFault) -> ErrorLine
    ensures { result ≡ script_line fault.now }
{
    let mut line = ErrorLine::new();
    line.push("cloner: script: refusal ");
    line.push_number(fault.number() as u64);
    line.push(" at line ");
    line.push_number(fault.line() as u64);
    line.push("\n");
    line
}

// The error line for a refused decision, with its line number in the script.
fn line_of_decision(reply: &Reply, number: u32) -> ErrorLine
    ensures { result ≡ decision_line reply.now number }
{
    let mut line = ErrorLine::new();
    line.push("cloner: decision: refusal ");
    line.push_number(reply.number() as u64);
    line.push(" at line ");
    line.push_number(number as u64);
    line.push("\n");
    line
}

// The error line for a refused text of watches.
fn line_of_watches(fault: &WatchFault) -> ErrorLine
    ensures { result ≡ watches_line fault.now }
{
    let mut line = ErrorLine::new();
    line.push("cloner: watches: refusal ");
    line.push_number(fault.number() as u64);
    line.push(" at line ");
    line.push_number(fault.line() as u64);
    line.push("\n");
    line
}

// The error line for a watch that does not fit, with its line number in the file of watches.
fn line_of_watch(reply: &Reply, number: u32) -> ErrorLine
    ensures { result ≡ watch_line reply.now number }
{
    let mut line = ErrorLine::new();
    line.push("cloner: watch: refusal ");
    line.push_number(reply.number() as u64);
    line.push(" at line ");
    line.push_number(number as u64);
    line.push("\n");
    line
}

// The error line for a refused snapshot: its place is a line, a station or a message.
fn line_of_snapshot(fault: &SnapshotFault) -> ErrorLine
    ensures { result ≡ snapshot_line fault.now }
{
    let mut line = ErrorLine::new();
    line.push("cloner: snapshot: refusal ");
    line.push_number(fault.number() as u64);
    line.push(" at ");
    line.push_number(fault.place() as u64);
    line.push("\n");
    line
}

// The error line for a name that no clone has.
fn line_of_no_clone(name: &Name) -> ErrorLine
    ensures { result ≡ no_clone_line name.now }
{
    let mut line = ErrorLine::new();
    line.push("cloner: no clone ");
    line.push_name(name);
    line.push("\n");
    line
}

impl Stop {
    /// Returns the exit status: 4 to 6, 9 or 10.
    pub fn status(&self) -> u8
        ensures { result ≡ stop_status self.now }
    {
        match self {
            Stop::BadModel(_) => 4,
            Stop::BadScript(_) => 5,
            Stop::BadDecision { .. } | Stop::NoClone(_) => 6,
            Stop::BadWatches(_) | Stop::BadWatch { .. } => 9,
            Stop::BadSnapshot(_) => 10,
        }
    }

    /// Returns the error line.
    pub fn line(&self) -> ErrorLine
        ensures { result ≡ stop_line self.now }
    {
        match self {
            Stop::BadModel(fault) => line_of_model(fault),
            Stop::BadScript(fault) => line_of_script(fault),
            Stop::BadDecision { reply, line } => line_of_decision(reply, *line),
            Stop::NoClone(name) => line_of_no_clone(name),
            Stop::BadWatches(fault) => line_of_watches(fault),
            Stop::BadWatch { reply, line } => line_of_watch(reply, *line),
            Stop::BadSnapshot(fault) => line_of_snapshot(fault),
        }
    }
}
