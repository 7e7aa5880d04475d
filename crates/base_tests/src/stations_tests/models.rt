//! A model with a station of each kind.

/// One station of each kind.
pub const FIVE_KINDS: &str = r#"lookahead = 2
horizon = 100
seed = 42
[[station]]
name = "gate"
kind = "source"
every = [3, 3]
jobs = 5
link = [{ to = "desk", delay = 2 }]
[[station]]
name = "desk"
kind = "server"
servers = 2
room = 5
service = [1, 10]
stream = 54
link = [{ to = "hall", delay = 2 }]
[[station]]
name = "hall"
kind = "delay"
hold = [1, 1]
link = [{ to = "fan", delay = 2 }]
[[station]]
name = "fan"
kind = "router"
by = "weights"
stream = 54
link = [{ to = "desk", delay = 2, weight = 4 }, { to = "out", delay = 3, weight = 6 }]
[[station]]
name = "out"
kind = "sink"
"#;
