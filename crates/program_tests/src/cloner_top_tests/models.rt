//! Models that only these tests read.

/// Messages of a station to itself that are closer than the lookahead.
pub const CLOSE_MESSAGES: &str = r#"lookahead = 5
horizon = 30
[[station]]
name = "gate"
kind = "source"
every = [1, 1]
jobs = 3
link = [{ to = "desk", delay = 5 }]
[[station]]
name = "desk"
kind = "server"
servers = 1
room = 5
service = [1, 1]
link = [{ to = "out", delay = 5 }]
[[station]]
name = "out"
kind = "sink"
"#;

/// A router that sends each job back to itself.
pub const SPINNING: &str = r#"lookahead = 1
horizon = 100000
[[station]]
name = "gate"
kind = "source"
every = [1, 1]
jobs = 1
link = [{ to = "spin", delay = 1 }]
[[station]]
name = "spin"
kind = "router"
by = "turn"
link = [{ to = "spin", delay = 1 }]
"#;

/// Two servers in a ring, with delays of 3 and 5.
pub const RING: &str = r#"lookahead = 2
horizon = 20
[[station]]
name = "gate"
kind = "source"
every = [3, 3]
jobs = 2
link = [{ to = "a", delay = 2 }]
[[station]]
name = "a"
kind = "server"
servers = 1
room = 5
service = [1, 1]
link = [{ to = "b", delay = 3 }]
[[station]]
name = "b"
kind = "server"
servers = 1
room = 5
service = [1, 1]
link = [{ to = "a", delay = 5 }]
"#;

/// A sink without other stations.
pub const ONE_SINK: &str = r#"lookahead = 2
horizon = 20
[[station]]
name = "out"
kind = "sink"
"#;

/// A source whose jobs raise more fronts than the text of a script can hold.
pub const MANY_FRONTS: &str = r#"lookahead = 1
horizon = 130000
limit = 65536
[[station]]
name = "gate"
kind = "source"
every = [2, 2]
jobs = 64000
link = [{ to = "out", delay = 1 }]
[[station]]
name = "out"
kind = "sink"
"#;

/// A desk with random service times.
pub const DRAWN_DESK: &str = r#"lookahead = 2
horizon = 30
seed = 42
[[station]]
name = "gate"
kind = "source"
every = [3, 3]
jobs = 3
link = [{ to = "desk", delay = 2 }]
[[station]]
name = "desk"
kind = "server"
servers = 1
room = 5
service = [1, 10]
stream = 54
link = [{ to = "out", delay = 2 }]
[[station]]
name = "out"
kind = "sink"
"#;

/// A job of the lesser class comes while two of the greater are there.
pub const LATE_HIGH: &str = r#"format = 2
lookahead = 2
horizon = 20
[[station]]
name = "low"
kind = "source"
every = [3, 3]
jobs = 2
class = 2
link = [{ to = "desk", delay = 2 }]
[[station]]
name = "high"
kind = "source"
every = [7, 7]
jobs = 1
class = 1
link = [{ to = "desk", delay = 2 }]
[[station]]
name = "desk"
kind = "server"
servers = 1
room = 5
service = [4, 4]
order = "class"
link = [{ to = "out", delay = 2 }]
[[station]]
name = "out"
kind = "sink"
"#;

/// A sink that no link leads to.
pub const ONLY_OUT: &str = r#"lookahead = 1
horizon = 1
[[station]]
name = "out"
kind = "sink"
"#;

/// A desk to which every second job returns.
pub const FEEDBACK: &str = r#"lookahead = 2
horizon = 30
[[station]]
name = "gate"
kind = "source"
every = [3, 3]
jobs = 3
link = [{ to = "desk", delay = 2 }]
[[station]]
name = "desk"
kind = "server"
servers = 1
room = 2
service = [4, 4]
link = [{ to = "turn", delay = 2 }]
[[station]]
name = "turn"
kind = "router"
by = "turn"
link = [{ to = "desk", delay = 2 }, { to = "out", delay = 2 }]
[[station]]
name = "out"
kind = "sink"
"#;

/// Stations of each kind, all with random numbers, and a desk from which some jobs go back to the router.
pub const FIVE_KINDS: &str = r#"lookahead = 2
horizon = 40
seed = 56
[[station]]
name = "gate"
kind = "source"
every = [1, 3]
jobs = 9
link = [{ to = "fan", delay = 2 }]
[[station]]
name = "fan"
kind = "router"
by = "weights"
link = [{ to = "slow", delay = 2, weight = 2 }, { to = "desk", delay = 3 }]
[[station]]
name = "slow"
kind = "delay"
hold = [0, 4]
link = [{ to = "desk", delay = 2 }]
[[station]]
name = "desk"
kind = "server"
servers = 1
room = 3
service = [2, 6]
link = [{ to = "fan", delay = 2 }, { to = "out", delay = 2, weight = 3 }]
[[station]]
name = "out"
kind = "sink"
"#;

/// A desk at which something happens at each time.
pub const STEADY_DESK: &str = r#"lookahead = 1
horizon = 5000
[[station]]
name = "gate"
kind = "source"
every = [1, 1]
jobs = 5000
link = [{ to = "desk", delay = 1 }]
[[station]]
name = "desk"
kind = "server"
servers = 1
room = 5
service = [1, 1]
link = [{ to = "out", delay = 2 }]
[[station]]
name = "out"
kind = "sink"
"#;
