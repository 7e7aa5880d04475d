//! The texts of three generated studies, written by another program that implements the format.

/// A number, and the text of its model.
pub struct Row {
    /// What the text shows.
    pub shows: &'static str,
    /// The number of the study.
    pub number: u32,
    /// The text of its model.
    pub model: &'static str,
}

/// The least number, one in between, and the greatest.
pub const ROWS: &[Row] = &[
    Row {
        shows: "the least number has two wards",
        number: 1,
        model: FIRST,
    },
    Row {
        shows: "seven has all eight wards",
        number: 7,
        model: SEVENTH,
    },
    Row {
        shows: "the greatest number has the thinnest stream of patients",
        number: 999_999,
        model: LAST,
    },
];

const FIRST: &str = r#"lookahead = 2
horizon = 5000
seed = 1
[[station]]
name = "door"
kind = "source"
every = [1, 2]
jobs = 5000
link = [{ to = "triage", delay = 2 }]
[[station]]
name = "triage"
kind = "router"
by = "weights"
link = [{ to = "ward1", delay = 2, weight = 1 }, { to = "ward2", delay = 2, weight = 2 }]
[[station]]
name = "ward1"
kind = "server"
servers = 2
room = 20
service = [3, 5]
link = [{ to = "walk", delay = 3 }]
[[station]]
name = "ward2"
kind = "server"
servers = 3
room = 20
service = [3, 7]
link = [{ to = "walk", delay = 3 }]
[[station]]
name = "walk"
kind = "delay"
hold = [0, 4]
link = [{ to = "exit", delay = 2 }]
[[station]]
name = "exit"
kind = "sink"
"#;

const SEVENTH: &str = r#"lookahead = 2
horizon = 5000
seed = 7
[[station]]
name = "door"
kind = "source"
every = [1, 3]
jobs = 5000
link = [{ to = "triage", delay = 2 }]
[[station]]
name = "triage"
kind = "router"
by = "weights"
link = [{ to = "ward1", delay = 2, weight = 1 }, { to = "ward2", delay = 2, weight = 2 }, { to = "ward3", delay = 2, weight = 3 }, { to = "ward4", delay = 2, weight = 4 }, { to = "ward5", delay = 2, weight = 5 }, { to = "ward6", delay = 2, weight = 6 }, { to = "ward7", delay = 2, weight = 7 }, { to = "ward8", delay = 2, weight = 8 }]
[[station]]
name = "ward1"
kind = "server"
servers = 2
room = 20
service = [3, 5]
link = [{ to = "walk", delay = 3 }]
[[station]]
name = "ward2"
kind = "server"
servers = 3
room = 20
service = [3, 7]
link = [{ to = "walk", delay = 3 }]
[[station]]
name = "ward3"
kind = "server"
servers = 1
room = 20
service = [3, 9]
link = [{ to = "walk", delay = 3 }]
[[station]]
name = "ward4"
kind = "server"
servers = 2
room = 20
service = [3, 11]
link = [{ to = "walk", delay = 3 }]
[[station]]
name = "ward5"
kind = "server"
servers = 3
room = 20
service = [3, 13]
link = [{ to = "walk", delay = 3 }]
[[station]]
name = "ward6"
kind = "server"
servers = 1
room = 20
service = [3, 15]
link = [{ to = "walk", delay = 3 }]
[[station]]
name = "ward7"
kind = "server"
servers = 2
room = 20
service = [3, 17]
link = [{ to = "walk", delay = 3 }]
[[station]]
name = "ward8"
kind = "server"
servers = 3
room = 20
service = [3, 19]
link = [{ to = "walk", delay = 3 }]
[[station]]
name = "walk"
kind = "delay"
hold = [0, 4]
link = [{ to = "exit", delay = 2 }]
[[station]]
name = "exit"
kind = "sink"
"#;

const LAST: &str = r#"lookahead = 2
horizon = 5000
seed = 999999
[[station]]
name = "door"
kind = "source"
every = [1, 5]
jobs = 5000
link = [{ to = "triage", delay = 2 }]
[[station]]
name = "triage"
kind = "router"
by = "weights"
link = [{ to = "ward1", delay = 2, weight = 1 }, { to = "ward2", delay = 2, weight = 2 }, { to = "ward3", delay = 2, weight = 3 }, { to = "ward4", delay = 2, weight = 4 }, { to = "ward5", delay = 2, weight = 5 }, { to = "ward6", delay = 2, weight = 6 }, { to = "ward7", delay = 2, weight = 7 }, { to = "ward8", delay = 2, weight = 8 }]
[[station]]
name = "ward1"
kind = "server"
servers = 2
room = 20
service = [3, 5]
link = [{ to = "walk", delay = 3 }]
[[station]]
name = "ward2"
kind = "server"
servers = 3
room = 20
service = [3, 7]
link = [{ to = "walk", delay = 3 }]
[[station]]
name = "ward3"
kind = "server"
servers = 1
room = 20
service = [3, 9]
link = [{ to = "walk", delay = 3 }]
[[station]]
name = "ward4"
kind = "server"
servers = 2
room = 20
service = [3, 11]
link = [{ to = "walk", delay = 3 }]
[[station]]
name = "ward5"
kind = "server"
servers = 3
room = 20
service = [3, 13]
link = [{ to = "walk", delay = 3 }]
[[station]]
name = "ward6"
kind = "server"
servers = 1
room = 20
service = [3, 15]
link = [{ to = "walk", delay = 3 }]
[[station]]
name = "ward7"
kind = "server"
servers = 2
room = 20
service = [3, 17]
link = [{ to = "walk", delay = 3 }]
[[station]]
name = "ward8"
kind = "server"
servers = 3
room = 20
service = [3, 19]
link = [{ to = "walk", delay = 3 }]
[[station]]
name = "walk"
kind = "delay"
hold = [0, 4]
link = [{ to = "exit", delay = 2 }]
[[station]]
name = "exit"
kind = "sink"
"#;

/// The script of every number.
pub const SCRIPT: &str = r#"fork plan1 from base
set plan1 at 100 ward1 service 1 3
fork plan2 from plan1
set plan2 at 200 ward1 service 1 4
fork plan3 from plan1
set plan3 at 300 ward1 service 1 5
fork plan4 from plan2
set plan4 at 400 ward1 service 1 6
fork plan5 from plan2
set plan5 at 500 ward1 service 1 7
fork plan6 from plan3
set plan6 at 600 ward1 service 1 8
fork plan7 from plan3
set plan7 at 700 ward1 service 1 9
fork plan8 from plan4
set plan8 at 800 ward1 service 1 10
fork plan9 from plan4
set plan9 at 900 ward1 service 1 11
fork plan10 from plan5
set plan10 at 1000 ward1 service 1 12
fork plan11 from plan5
set plan11 at 1100 ward1 service 1 13
fork plan12 from plan6
set plan12 at 1200 ward1 service 1 14
fork plan13 from plan6
set plan13 at 1300 ward1 service 1 15
fork plan14 from plan7
set plan14 at 1400 ward1 service 1 16
fork plan15 from plan7
set plan15 at 1500 ward1 service 1 17
fork plan16 from plan8
set plan16 at 1600 ward1 service 1 18
"#;
