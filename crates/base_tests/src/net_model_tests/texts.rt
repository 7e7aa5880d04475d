//! Model texts of the tests. The first two are files of the folder `examples` at the top of the repository, byte for
//! byte. The small model and `examples/clinic.toml` are in `sample_models`.

/// `examples/factory.toml`
pub const FACTORY: &str =
    r#"# A factory line with rework; times in seconds. Parts are cut, assembled and checked. Of 20 parts the
# check passes 17 and sends two back to assembly, and one is scrapped.
lookahead = 5
horizon = 200000
seed = 7

[[station]]
name = "blanks"
kind = "source"
every = [40, 70]
jobs = 3000
link = [{ to = "cutting", delay = 10 }]

[[station]]
name = "cutting"
kind = "server"
servers = 2
room = 30
service = [60, 90]
link = [{ to = "assembly", delay = 15 }]

[[station]]
name = "assembly"
kind = "server"
servers = 4
room = 50
service = [120, 240]
link = [{ to = "paint", delay = 5 }]

[[station]]
name = "paint"
kind = "delay"
hold = [300, 420]
link = [{ to = "check", delay = 5 }]

[[station]]
name = "check"
kind = "router"
by = "weights"
link = [
    { to = "store", delay = 20, weight = 17 },
    { to = "assembly", delay = 30, weight = 2 },
    { to = "scrap", delay = 5, weight = 1 },
]

[[station]]
name = "store"
kind = "sink"

[[station]]
name = "scrap"
kind = "sink"
"#;

/// `examples/road.toml`
pub const ROAD: &str =
    r#"# A road with two traffic signals; times in tenths of a second. A signal lets one car after the other
# over its stop line, so it is a server whose service is the gap between two cars, and the stretches of
# road are delays. Cars leave by the two exits in turn. Ambulances, class 1, go first at the signals.
format = 2
lookahead = 5
horizon = 72000
seed = 11
limit = 32768

[[station]]
name = "west"
kind = "source"
every = [30, 90]
jobs = 1000
class = 2
link = [{ to = "first_block", delay = 5 }]

[[station]]
name = "ambulances"
kind = "source"
every = [4000, 9000]
jobs = 12
class = 1
stream = 40
link = [{ to = "first_block", delay = 5 }]

[[station]]
name = "first_block"
kind = "delay"
hold = [150, 220]
link = [{ to = "first_signal", delay = 5 }]

[[station]]
name = "first_signal"
kind = "server"
servers = 1
room = 25
service = [18, 45]
order = "class"
link = [{ to = "second_block", delay = 5 }]

[[station]]
name = "second_block"
kind = "delay"
hold = [200, 320]
link = [{ to = "second_signal", delay = 5 }]

[[station]]
name = "second_signal"
kind = "server"
servers = 2
room = 40
service = [18, 60]
order = "class"
link = [{ to = "fork", delay = 5 }]

[[station]]
name = "fork"
kind = "router"
by = "turn"
link = [{ to = "north", delay = 10 }, { to = "south", delay = 12 }]

[[station]]
name = "north"
kind = "sink"

[[station]]
name = "south"
kind = "sink"
"#;

/// The small model with its stations as one inline array, and its keys in another order.
pub const INLINE: &str =
    r#"station = [{ jobs = 2, every = [0x3, 3], kind = "source", name = "gate", link = [{ delay = 2, to = "desk" }] }, { name = "desk", kind = "server", servers = 1, room = 5, service = [4, 4], link = [{ to = "out", delay = 2 }] }, { name = "out", kind = "sink" }]
horizon = 2_0
lookahead = 2
"#;

/// Seventeen links to `out`.
pub const SEVENTEEN: &str =
    r#"link = [{ to = "out", delay = 2 }, { to = "out", delay = 2 }, { to = "out", delay = 2 }, { to = "out", delay = 2 }, { to = "out", delay = 2 }, { to = "out", delay = 2 }, { to = "out", delay = 2 }, { to = "out", delay = 2 }, { to = "out", delay = 2 }, { to = "out", delay = 2 }, { to = "out", delay = 2 }, { to = "out", delay = 2 }, { to = "out", delay = 2 }, { to = "out", delay = 2 }, { to = "out", delay = 2 }, { to = "out", delay = 2 }, { to = "out", delay = 2 }]"#;
