//! Models that the tests of several crates read. Some come with scripts and an expected journal.
//!
//! The tests of lower and higher crates use the same constants, so a change of a network reaches all of them:
//!
//! ```text
//! ONE_DESK       gate -> desk -> out               the worked example
//! NO_ROOM        three sources -> desk -> out      jobs that arrive at one time are lost
//! DRAWN_GATE     gate -> out                       random interarrival times
//! FAN_BY_TURN    gate -> fan -> slow -> out        a router by turn, whose second link goes to the sink
//! CLASSES        two sources -> desk -> out        a server that serves by class
//! BUSY           gate -> out                       windows that more than one thread steps
//! CLINIC         examples/clinic.toml              a planner's model
//! ```
//!
//! A test takes a text unchanged, or with one piece of it replaced:
//!
//! ```text
//! let model = read_model(alloc, ONE_DESK.as_bytes())?;
//! let limited = ONE_DESK.replacen(alloc, "horizon = 20", "horizon = 20\nlimit = 3", 1)?;
//! ```
//!
//! There is nothing to run and nothing to prove.
#![tactic(auto)]

/// A source of two jobs, a desk with one server, and a sink, one after the other.
pub const ONE_DESK: &str = r#"lookahead = 2
horizon = 20
[[station]]
name = "gate"
kind = "source"
every = [3, 3]
jobs = 2
link = [{ to = "desk", delay = 2 }]
[[station]]
name = "desk"
kind = "server"
servers = 1
room = 5
service = [4, 4]
link = [{ to = "out", delay = 2 }]
[[station]]
name = "out"
kind = "sink"
"#;

/// Three sources, whose jobs reach a desk without a waiting room at one time, and a sink.
pub const NO_ROOM: &str = r#"lookahead = 2
horizon = 20
[[station]]
name = "s1"
kind = "source"
every = [3, 3]
jobs = 1
link = [{ to = "desk", delay = 2 }]
[[station]]
name = "s2"
kind = "source"
every = [3, 3]
jobs = 1
link = [{ to = "desk", delay = 2 }]
[[station]]
name = "s3"
kind = "source"
every = [3, 3]
jobs = 1
link = [{ to = "desk", delay = 2 }]
[[station]]
name = "desk"
kind = "server"
servers = 1
room = 0
service = [4, 4]
link = [{ to = "out", delay = 2 }]
[[station]]
name = "out"
kind = "sink"
"#;

/// A source with random interarrival times, and a sink.
pub const DRAWN_GATE: &str = r#"lookahead = 2
horizon = 20
seed = 42
[[station]]
name = "gate"
kind = "source"
every = [1, 10]
jobs = 3
stream = 54
link = [{ to = "out", delay = 2 }]
[[station]]
name = "out"
kind = "sink"
"#;

/// A router that takes its links by turn, with a delay after the first.
pub const FAN_BY_TURN: &str = r#"lookahead = 2
horizon = 20
seed = 42
[[station]]
name = "gate"
kind = "source"
every = [3, 3]
jobs = 3
link = [{ to = "fan", delay = 2 }]
[[station]]
name = "fan"
kind = "router"
by = "turn"
stream = 54
link = [{ to = "slow", delay = 2, weight = 4 }, { to = "out", delay = 3, weight = 6 }]
[[station]]
name = "slow"
kind = "delay"
hold = [1, 1]
link = [{ to = "out", delay = 2 }]
[[station]]
name = "out"
kind = "sink"
"#;

/// Two sources of different classes before a desk that serves by class.
pub const CLASSES: &str = r#"format = 2
lookahead = 2
horizon = 20
[[station]]
name = "low"
kind = "source"
every = [3, 3]
jobs = 1
class = 2
link = [{ to = "desk", delay = 2 }]
[[station]]
name = "high"
kind = "source"
every = [2, 2]
jobs = 3
link = [{ to = "desk", delay = 2 }]
[[station]]
name = "desk"
kind = "server"
servers = 1
room = 5
service = [4, 4]
order = "class"
link = [{ to = "out", delay = 2 }]
[[station]]
name = "out"
kind = "sink"
"#;

/// Two stations and windows of more than 8,000 messages: more than one thread steps them.
pub const BUSY: &str = r#"lookahead = 9000
horizon = 27000
limit = 65536
[[station]]
name = "gate"
kind = "source"
every = [1, 1]
jobs = 27000
link = [{ to = "out", delay = 9000 }]
[[station]]
name = "out"
kind = "sink"
"#;

/// A walk-in clinic where one patient in four is x-rayed: `examples/clinic.toml` at the top of the repository, byte for
/// byte.
pub const CLINIC: &str = r#"# A walk-in clinic; times in minutes
lookahead = 1
horizon = 10000
seed = 2001

[[station]]
name = "arrivals"
kind = "source"
every = [4, 9]
jobs = 3000
link = [{ to = "reception", delay = 1 }]

[[station]]
name = "reception"
kind = "server"
servers = 2
room = 40
service = [3, 8]
link = [{ to = "triage", delay = 1 }]

[[station]]
name = "triage"
kind = "router"
by = "weights"
link = [{ to = "doctor", delay = 2, weight = 3 }, { to = "xray", delay = 4, weight = 1 }]

[[station]]
name = "doctor"
kind = "server"
servers = 3
room = 60
service = [10, 25]
link = [{ to = "exit", delay = 1 }]

[[station]]
name = "xray"
kind = "server"
servers = 1
room = 20
service = [8, 16]
link = [{ to = "doctor", delay = 3 }]

[[station]]
name = "exit"
kind = "sink"
"#;

/// Two branches with equal decisions, as a script.
pub const EQUAL_SCRIPT: &str = "fork a from base
fork b from base
set a at 8 desk service 2 2
set b at 8 desk service 2 2
";

/// The own script of clone `b` in [`EQUAL_SCRIPT`].
pub const OWN_SCRIPT_OF_B: &str = "fork b from base
set b at 8 desk service 2 2
";

/// The journal of [`ONE_DESK`] without decisions and looks: only its fronts.
pub const QUIET_JOURNAL: &str = "journal 0 7
# front 5
# front 7
# front 10
# front 13
# front 15
# front 17
# front 20
looks 0
";
