//! Output of runs, byte for byte, and the script of the clinic.

/// One job at a time.
pub const BASE: &str = r#"clone base
3 gate gate 0 tick sent=1
5 desk gate 1 job gate.0 busy=1 wait=0 done=0 lost=0
6 gate gate 2 tick sent=2
8 desk gate 3 job gate.1 busy=1 wait=1 done=0 lost=0
9 desk desk 0 done gate.0 busy=1 wait=0 done=1 lost=0
11 out desk 1 job gate.0 got=1 stay=8
13 desk desk 2 done gate.1 busy=0 wait=0 done=2 lost=0
15 out desk 3 job gate.1 got=2 stay=17
"#;

/// A branch whose desk serves faster from 8 on.
pub const BASE_AND_FAST: &str = r#"clone base
3 gate gate 0 tick sent=1
5 desk gate 1 job gate.0 busy=1 wait=0 done=0 lost=0
6 gate gate 2 tick sent=2
8 desk gate 3 job gate.1 busy=1 wait=1 done=0 lost=0
9 desk desk 0 done gate.0 busy=1 wait=0 done=1 lost=0
11 out desk 1 job gate.0 got=1 stay=8
13 desk desk 2 done gate.1 busy=0 wait=0 done=2 lost=0
15 out desk 3 job gate.1 got=2 stay=17
clone fast
3 gate gate 0 tick sent=1
5 desk gate 1 job gate.0 busy=1 wait=0 done=0 lost=0
6 gate gate 2 tick sent=2
8 desk analyst 0 set service 2 2 busy=1 wait=0 done=0 lost=0
8 desk gate 3 job gate.1 busy=1 wait=1 done=0 lost=0
9 desk desk 0 done gate.0 busy=1 wait=0 done=1 lost=0
11 out desk 1 job gate.0 got=1 stay=8
11 desk desk 2 done gate.1 busy=0 wait=0 done=2 lost=0
13 out desk 3 job gate.1 got=2 stay=15
"#;

/// A fork after an accepted set whose time is still to come.
pub const FAST_TWINS: &str = r#"clone base
3 gate gate 0 tick sent=1
5 desk gate 1 job gate.0 busy=1 wait=0 done=0 lost=0
6 gate gate 2 tick sent=2
8 desk analyst 0 set service 2 2 busy=1 wait=0 done=0 lost=0
8 desk gate 3 job gate.1 busy=1 wait=1 done=0 lost=0
9 desk desk 0 done gate.0 busy=1 wait=0 done=1 lost=0
11 out desk 1 job gate.0 got=1 stay=8
11 desk desk 2 done gate.1 busy=0 wait=0 done=2 lost=0
13 out desk 3 job gate.1 got=2 stay=15
clone twin
3 gate gate 0 tick sent=1
5 desk gate 1 job gate.0 busy=1 wait=0 done=0 lost=0
6 gate gate 2 tick sent=2
8 desk analyst 0 set service 2 2 busy=1 wait=0 done=0 lost=0
8 desk gate 3 job gate.1 busy=1 wait=1 done=0 lost=0
9 desk desk 0 done gate.0 busy=1 wait=0 done=1 lost=0
11 out desk 1 job gate.0 got=1 stay=8
11 desk desk 2 done gate.1 busy=0 wait=0 done=2 lost=0
13 out desk 3 job gate.1 got=2 stay=15
"#;

/// Two branches with equal decisions.
pub const EQUAL_BRANCHES: &str = r#"clone base
3 gate gate 0 tick sent=1
5 desk gate 1 job gate.0 busy=1 wait=0 done=0 lost=0
6 gate gate 2 tick sent=2
8 desk gate 3 job gate.1 busy=1 wait=1 done=0 lost=0
9 desk desk 0 done gate.0 busy=1 wait=0 done=1 lost=0
11 out desk 1 job gate.0 got=1 stay=8
13 desk desk 2 done gate.1 busy=0 wait=0 done=2 lost=0
15 out desk 3 job gate.1 got=2 stay=17
clone a
3 gate gate 0 tick sent=1
5 desk gate 1 job gate.0 busy=1 wait=0 done=0 lost=0
6 gate gate 2 tick sent=2
8 desk analyst 0 set service 2 2 busy=1 wait=0 done=0 lost=0
8 desk gate 3 job gate.1 busy=1 wait=1 done=0 lost=0
9 desk desk 0 done gate.0 busy=1 wait=0 done=1 lost=0
11 out desk 1 job gate.0 got=1 stay=8
11 desk desk 2 done gate.1 busy=0 wait=0 done=2 lost=0
13 out desk 3 job gate.1 got=2 stay=15
clone b
3 gate gate 0 tick sent=1
5 desk gate 1 job gate.0 busy=1 wait=0 done=0 lost=0
6 gate gate 2 tick sent=2
8 desk analyst 0 set service 2 2 busy=1 wait=0 done=0 lost=0
8 desk gate 3 job gate.1 busy=1 wait=1 done=0 lost=0
9 desk desk 0 done gate.0 busy=1 wait=0 done=1 lost=0
11 out desk 1 job gate.0 got=1 stay=8
11 desk desk 2 done gate.1 busy=0 wait=0 done=2 lost=0
13 out desk 3 job gate.1 got=2 stay=15
"#;

/// The same, but one of them has another decision before that one.
pub const BRANCHES_APART: &str = r#"clone base
3 gate gate 0 tick sent=1
5 desk gate 1 job gate.0 busy=1 wait=0 done=0 lost=0
6 gate gate 2 tick sent=2
8 desk gate 3 job gate.1 busy=1 wait=1 done=0 lost=0
9 desk desk 0 done gate.0 busy=1 wait=0 done=1 lost=0
11 out desk 1 job gate.0 got=1 stay=8
13 desk desk 2 done gate.1 busy=0 wait=0 done=2 lost=0
15 out desk 3 job gate.1 got=2 stay=17
clone a
3 gate gate 0 tick sent=1
5 desk gate 1 job gate.0 busy=1 wait=0 done=0 lost=0
6 gate gate 2 tick sent=2
8 desk analyst 1 set service 2 2 busy=1 wait=0 done=0 lost=0
8 desk gate 3 job gate.1 busy=1 wait=1 done=0 lost=0
9 desk desk 0 done gate.0 busy=1 wait=0 done=1 lost=0
11 out desk 1 job gate.0 got=1 stay=8
11 desk desk 2 done gate.1 busy=0 wait=0 done=2 lost=0
13 out desk 3 job gate.1 got=2 stay=15
15 desk analyst 0 set room 9 busy=0 wait=0 done=2 lost=0
clone b
3 gate gate 0 tick sent=1
5 desk gate 1 job gate.0 busy=1 wait=0 done=0 lost=0
6 gate gate 2 tick sent=2
8 desk analyst 0 set service 2 2 busy=1 wait=0 done=0 lost=0
8 desk gate 3 job gate.1 busy=1 wait=1 done=0 lost=0
9 desk desk 0 done gate.0 busy=1 wait=0 done=1 lost=0
11 out desk 1 job gate.0 got=1 stay=8
11 desk desk 2 done gate.1 busy=0 wait=0 done=2 lost=0
13 out desk 3 job gate.1 got=2 stay=15
"#;

/// One branch alone.
pub const ONE_BRANCH: &str = r#"clone b
3 gate gate 0 tick sent=1
5 desk gate 1 job gate.0 busy=1 wait=0 done=0 lost=0
6 gate gate 2 tick sent=2
8 desk analyst 0 set service 2 2 busy=1 wait=0 done=0 lost=0
8 desk gate 3 job gate.1 busy=1 wait=1 done=0 lost=0
9 desk desk 0 done gate.0 busy=1 wait=0 done=1 lost=0
11 out desk 1 job gate.0 got=1 stay=8
11 desk desk 2 done gate.1 busy=0 wait=0 done=2 lost=0
13 out desk 3 job gate.1 got=2 stay=15
"#;

/// A set at time 0.
pub const SET_AT_START: &str = r#"clone base
0 desk analyst 0 set service 4 4 busy=0 wait=0 done=0 lost=0
3 gate gate 0 tick sent=1
5 desk gate 1 job gate.0 busy=1 wait=0 done=0 lost=0
6 gate gate 2 tick sent=2
8 desk gate 3 job gate.1 busy=1 wait=1 done=0 lost=0
9 desk desk 0 done gate.0 busy=1 wait=0 done=1 lost=0
11 out desk 1 job gate.0 got=1 stay=8
13 desk desk 2 done gate.1 busy=0 wait=0 done=2 lost=0
15 out desk 3 job gate.1 got=2 stay=17
"#;

/// A set at the last time before the horizon.
pub const SET_AT_LAST: &str = r#"clone base
3 gate gate 0 tick sent=1
5 desk gate 1 job gate.0 busy=1 wait=0 done=0 lost=0
6 gate gate 2 tick sent=2
8 desk gate 3 job gate.1 busy=1 wait=1 done=0 lost=0
9 desk desk 0 done gate.0 busy=1 wait=0 done=1 lost=0
11 out desk 1 job gate.0 got=1 stay=8
13 desk desk 2 done gate.1 busy=0 wait=0 done=2 lost=0
15 out desk 3 job gate.1 got=2 stay=17
19 desk analyst 0 set room 5 busy=0 wait=0 done=2 lost=0
"#;

/// Messages of a station to itself that are closer than the lookahead.
pub const CLOSE_MESSAGES: &str = r#"clone base
1 gate gate 0 tick sent=1
2 gate gate 2 tick sent=2
3 gate gate 4 tick sent=3
6 desk gate 1 job gate.0 busy=1 wait=0 done=0 lost=0
7 desk gate 3 job gate.1 busy=1 wait=1 done=0 lost=0
7 desk desk 0 done gate.0 busy=1 wait=0 done=1 lost=0
8 desk gate 5 job gate.2 busy=1 wait=1 done=1 lost=0
8 desk desk 2 done gate.1 busy=1 wait=0 done=2 lost=0
9 desk desk 4 done gate.2 busy=0 wait=0 done=3 lost=0
12 out desk 1 job gate.0 got=1 stay=11
13 out desk 3 job gate.1 got=2 stay=22
14 out desk 5 job gate.2 got=3 stay=33
"#;

/// Random times between jobs.
pub const DRAWN_GATE: &str = r#"clone base
4 gate gate 0 tick sent=1
6 out gate 1 job gate.0 got=1 stay=2
12 gate gate 2 tick sent=2
14 out gate 3 job gate.1 got=2 stay=4
17 gate gate 4 tick sent=3
19 out gate 5 job gate.2 got=3 stay=6
"#;

/// Two jobs are lost because there is no waiting room.
pub const NO_ROOM: &str = r#"clone base
3 s1 s1 0 tick sent=1
3 s2 s2 0 tick sent=1
3 s3 s3 0 tick sent=1
5 desk s1 1 job s1.0 busy=1 wait=0 done=0 lost=0
5 desk s2 1 job s2.0 busy=1 wait=0 done=0 lost=1
5 desk s3 1 job s3.0 busy=1 wait=0 done=0 lost=2
9 desk desk 0 done s1.0 busy=0 wait=0 done=1 lost=2
11 out desk 1 job s1.0 got=1 stay=8
"#;

/// More servers serve the waiting jobs.
pub const MORE_SERVERS: &str = r#"clone base
3 s1 s1 0 tick sent=1
3 s2 s2 0 tick sent=1
3 s3 s3 0 tick sent=1
5 desk s1 1 job s1.0 busy=1 wait=0 done=0 lost=0
5 desk s2 1 job s2.0 busy=1 wait=1 done=0 lost=0
5 desk s3 1 job s3.0 busy=1 wait=2 done=0 lost=0
6 desk analyst 0 set servers 3 busy=3 wait=0 done=0 lost=0
9 desk desk 0 done s1.0 busy=2 wait=0 done=1 lost=0
10 desk desk 1 done s2.0 busy=1 wait=0 done=2 lost=0
10 desk desk 2 done s3.0 busy=0 wait=0 done=3 lost=0
11 out desk 3 job s1.0 got=1 stay=8
12 out desk 4 job s2.0 got=2 stay=17
12 out desk 5 job s3.0 got=3 stay=26
"#;

/// A router by turn, and a delay.
pub const FAN_BY_TURN: &str = r#"clone base
3 gate gate 0 tick sent=1
5 fan gate 1 job gate.0 passed=1
6 gate gate 2 tick sent=2
7 slow fan 0 job gate.0 passed=1
8 fan gate 3 job gate.1 passed=2
9 gate gate 4 tick sent=3
10 out slow 0 job gate.0 got=1 stay=7
11 fan gate 5 job gate.2 passed=3
11 out fan 1 job gate.1 got=2 stay=12
13 slow fan 2 job gate.2 passed=2
16 out slow 1 job gate.2 got=3 stay=19
"#;

/// The same with a router by weights.
pub const FAN_BY_WEIGHTS: &str = r#"clone base
3 gate gate 0 tick sent=1
5 fan gate 1 job gate.0 passed=1
6 gate gate 2 tick sent=2
7 slow fan 0 job gate.0 passed=1
8 fan gate 3 job gate.1 passed=2
9 gate gate 4 tick sent=3
10 out slow 0 job gate.0 got=1 stay=7
11 fan gate 5 job gate.2 passed=3
11 out fan 1 job gate.1 got=2 stay=12
14 out fan 2 job gate.2 got=3 stay=17
"#;

/// The lesser class first.
pub const CLASSES: &str = r#"clone base
2 high high 0 tick sent=1
3 low low 0 tick sent=1
4 desk high 1 job high.0:1 busy=1 wait=0 done=0 lost=0
4 high high 2 tick sent=2
5 desk low 1 job low.0:2 busy=1 wait=1 done=0 lost=0
6 desk high 3 job high.1:1 busy=1 wait=2 done=0 lost=0
6 high high 4 tick sent=3
8 desk high 5 job high.2:1 busy=1 wait=3 done=0 lost=0
8 desk desk 0 done high.0:1 busy=1 wait=2 done=1 lost=0
10 out desk 1 job high.0:1 got=1 stay=8
12 desk desk 2 done high.1:1 busy=1 wait=1 done=2 lost=0
14 out desk 3 job high.1:1 got=2 stay=18
16 desk desk 4 done high.2:1 busy=1 wait=0 done=3 lost=0
18 out desk 5 job high.2:1 got=3 stay=30
"#;

/// The first two jobs of a router, by turn or by weights.
pub const FAN_OF_TWO: &str = r#"clone base
3 gate gate 0 tick sent=1
5 fan gate 1 job gate.0 passed=1
6 gate gate 2 tick sent=2
7 slow fan 0 job gate.0 passed=1
8 fan gate 3 job gate.1 passed=2
10 out slow 0 job gate.0 got=1 stay=7
11 out fan 1 job gate.1 got=2 stay=12
"#;

/// A job of the lesser class is served before one that has waited longer.
pub const LATE_HIGH: &str = r#"clone base
3 low low 0 tick sent=1
5 desk low 1 job low.0:2 busy=1 wait=0 done=0 lost=0
6 low low 2 tick sent=2
7 high high 0 tick sent=1
8 desk low 3 job low.1:2 busy=1 wait=1 done=0 lost=0
9 desk high 1 job high.0:1 busy=1 wait=2 done=0 lost=0
9 desk desk 0 done low.0:2 busy=1 wait=1 done=1 lost=0
11 out desk 1 job low.0:2 got=1 stay=8
13 desk desk 2 done high.0:1 busy=1 wait=0 done=2 lost=0
15 out desk 3 job high.0:1 got=2 stay=16
17 desk desk 4 done low.1:2 busy=0 wait=0 done=3 lost=0
19 out desk 5 job low.1:2 got=3 stay=29
"#;

/// The same jobs by arrival.
pub const LATE_HIGH_BY_ARRIVAL: &str = r#"clone base
3 low low 0 tick sent=1
5 desk low 1 job low.0:2 busy=1 wait=0 done=0 lost=0
6 low low 2 tick sent=2
7 high high 0 tick sent=1
8 desk low 3 job low.1:2 busy=1 wait=1 done=0 lost=0
9 desk high 1 job high.0:1 busy=1 wait=2 done=0 lost=0
9 desk desk 0 done low.0:2 busy=1 wait=1 done=1 lost=0
11 out desk 1 job low.0:2 got=1 stay=8
13 desk desk 2 done low.1:2 busy=1 wait=0 done=2 lost=0
15 out desk 3 job low.1:2 got=2 stay=17
17 desk desk 4 done high.0:1 busy=0 wait=0 done=3 lost=0
19 out desk 5 job high.0:1 got=3 stay=29
"#;

/// The random service times are 4, 8 and 5, in both copies of the desk that splits at 10.
pub const DRAWN_BRANCHES: &str = r#"clone base
3 gate gate 0 tick sent=1
5 desk gate 1 job gate.0 busy=1 wait=0 done=0 lost=0
6 gate gate 2 tick sent=2
8 desk gate 3 job gate.1 busy=1 wait=1 done=0 lost=0
9 gate gate 4 tick sent=3
9 desk desk 0 done gate.0 busy=1 wait=0 done=1 lost=0
11 desk gate 5 job gate.2 busy=1 wait=1 done=1 lost=0
11 out desk 1 job gate.0 got=1 stay=8
17 desk desk 2 done gate.1 busy=1 wait=0 done=2 lost=0
19 out desk 3 job gate.1 got=2 stay=21
22 desk desk 4 done gate.2 busy=0 wait=0 done=3 lost=0
24 out desk 5 job gate.2 got=3 stay=36
clone b
3 gate gate 0 tick sent=1
5 desk gate 1 job gate.0 busy=1 wait=0 done=0 lost=0
6 gate gate 2 tick sent=2
8 desk gate 3 job gate.1 busy=1 wait=1 done=0 lost=0
9 gate gate 4 tick sent=3
9 desk desk 0 done gate.0 busy=1 wait=0 done=1 lost=0
10 desk analyst 0 set room 9 busy=1 wait=0 done=1 lost=0
11 desk gate 5 job gate.2 busy=1 wait=1 done=1 lost=0
11 out desk 1 job gate.0 got=1 stay=8
17 desk desk 2 done gate.1 busy=1 wait=0 done=2 lost=0
19 out desk 3 job gate.1 got=2 stay=21
22 desk desk 4 done gate.2 busy=0 wait=0 done=3 lost=0
24 out desk 5 job gate.2 got=3 stay=36
"#;

/// A branch that ends at 9.
pub const BRIEF: &str = r#"clone base
3 gate gate 0 tick sent=1
5 desk gate 1 job gate.0 busy=1 wait=0 done=0 lost=0
6 gate gate 2 tick sent=2
8 desk gate 3 job gate.1 busy=1 wait=1 done=0 lost=0
9 desk desk 0 done gate.0 busy=1 wait=0 done=1 lost=0
11 out desk 1 job gate.0 got=1 stay=8
13 desk desk 2 done gate.1 busy=0 wait=0 done=2 lost=0
15 out desk 3 job gate.1 got=2 stay=17
clone brief
3 gate gate 0 tick sent=1
5 desk gate 1 job gate.0 busy=1 wait=0 done=0 lost=0
6 gate gate 2 tick sent=2
8 desk gate 3 job gate.1 busy=1 wait=1 done=0 lost=0
"#;

/// A clone that handles nothing.
pub const NOTHING: &str = r#"clone base
"#;

/// The report after `BASE`.
pub const BASE_REPORT: &str = r#"report
gate copies=1 handled=2 alone=2
desk copies=1 handled=4 alone=4
out copies=1 handled=2 alone=2
total handled=8 alone=8
"#;

/// The report after `BASE_AND_FAST`.
pub const BASE_AND_FAST_REPORT: &str = r#"report
gate copies=1 handled=2 alone=4
desk copies=2 handled=8 alone=9
out copies=2 handled=3 alone=4
total handled=13 alone=17
"#;

/// The report after `FAST_TWINS`.
pub const FAST_TWINS_REPORT: &str = r#"report
gate copies=1 handled=2 alone=4
desk copies=1 handled=5 alone=10
out copies=1 handled=2 alone=4
total handled=9 alone=18
"#;

/// The report after `EQUAL_BRANCHES`.
pub const EQUAL_BRANCHES_REPORT: &str = r#"report
gate copies=1 handled=2 alone=6
desk copies=2 handled=8 alone=14
out copies=2 handled=3 alone=6
total handled=13 alone=26
"#;

/// The report after `BRANCHES_APART`.
pub const BRANCHES_APART_REPORT: &str = r#"report
gate copies=1 handled=2 alone=6
desk copies=3 handled=13 alone=15
out copies=2 handled=3 alone=6
total handled=18 alone=27
"#;

/// The report after `BRIEF`.
pub const BRIEF_REPORT: &str = r#"report
gate copies=1 handled=2 alone=4
desk copies=2 handled=4 alone=6
out copies=2 handled=2 alone=2
total handled=8 alone=12
"#;

/// The report after `NOTHING`.
pub const NOTHING_REPORT: &str = r#"report
gate copies=1 handled=0 alone=0
desk copies=1 handled=0 alone=0
out copies=1 handled=0 alone=0
total handled=0 alone=0
"#;

/// The report after `SET_AT_START`.
pub const SET_AT_START_REPORT: &str = r#"report
gate copies=1 handled=2 alone=2
desk copies=1 handled=5 alone=5
out copies=1 handled=2 alone=2
total handled=9 alone=9
"#;

/// The report after `SET_AT_LAST`.
pub const SET_AT_LAST_REPORT: &str = r#"report
gate copies=1 handled=2 alone=2
desk copies=1 handled=5 alone=5
out copies=1 handled=2 alone=2
total handled=9 alone=9
"#;

/// The report after `CLOSE_MESSAGES`.
pub const CLOSE_MESSAGES_REPORT: &str = r#"report
gate copies=1 handled=3 alone=3
desk copies=1 handled=6 alone=6
out copies=1 handled=3 alone=3
total handled=12 alone=12
"#;

/// The report after `DRAWN_GATE`.
pub const DRAWN_GATE_REPORT: &str = r#"report
gate copies=1 handled=3 alone=3
out copies=1 handled=3 alone=3
total handled=6 alone=6
"#;

/// The report after `NO_ROOM`.
pub const NO_ROOM_REPORT: &str = r#"report
s1 copies=1 handled=1 alone=1
s2 copies=1 handled=1 alone=1
s3 copies=1 handled=1 alone=1
desk copies=1 handled=4 alone=4
out copies=1 handled=1 alone=1
total handled=8 alone=8
"#;

/// The report after `MORE_SERVERS`.
pub const MORE_SERVERS_REPORT: &str = r#"report
s1 copies=1 handled=1 alone=1
s2 copies=1 handled=1 alone=1
s3 copies=1 handled=1 alone=1
desk copies=1 handled=7 alone=7
out copies=1 handled=3 alone=3
total handled=13 alone=13
"#;

/// The report after `FAN_BY_TURN`.
pub const FAN_BY_TURN_REPORT: &str = r#"report
gate copies=1 handled=3 alone=3
fan copies=1 handled=3 alone=3
slow copies=1 handled=2 alone=2
out copies=1 handled=3 alone=3
total handled=11 alone=11
"#;

/// The report after `FAN_BY_WEIGHTS`.
pub const FAN_BY_WEIGHTS_REPORT: &str = r#"report
gate copies=1 handled=3 alone=3
fan copies=1 handled=3 alone=3
slow copies=1 handled=1 alone=1
out copies=1 handled=3 alone=3
total handled=10 alone=10
"#;

/// The report after `CLASSES`.
pub const CLASSES_REPORT: &str = r#"report
low copies=1 handled=1 alone=1
high copies=1 handled=3 alone=3
desk copies=1 handled=7 alone=7
out copies=1 handled=3 alone=3
total handled=14 alone=14
"#;

/// The report after `FAN_OF_TWO`.
pub const FAN_OF_TWO_REPORT: &str = r#"report
gate copies=1 handled=2 alone=2
fan copies=1 handled=2 alone=2
slow copies=1 handled=1 alone=1
out copies=1 handled=2 alone=2
total handled=7 alone=7
"#;

/// The report after `LATE_HIGH`.
pub const LATE_HIGH_REPORT: &str = r#"report
low copies=1 handled=2 alone=2
high copies=1 handled=1 alone=1
desk copies=1 handled=6 alone=6
out copies=1 handled=3 alone=3
total handled=12 alone=12
"#;

/// The report after `DRAWN_BRANCHES`.
pub const DRAWN_BRANCHES_REPORT: &str = r#"report
gate copies=1 handled=3 alone=6
desk copies=2 handled=10 alone=13
out copies=1 handled=3 alone=6
total handled=16 alone=25
"#;

/// The report of a sink that no link leads to.
pub const ONLY_OUT_REPORT: &str = r#"report
out copies=1 handled=0 alone=0
total handled=0 alone=0
"#;

/// The snapshot of `BASE` at 10.
pub const SAVED: &str = r#"snapshot base front 10 end -
station 1 next 4 drawn 2 handled 2 source 3 3 2
station 2 next 3 drawn 2 handled 3 server 1 5 4 4 1 1 0 line 0
station 3 next 0 drawn 0 handled 0 sink 0 0
pending 2
11 2 1 3 job 1.0.3
13 2 2 2 done 1.1.6
trace 5
3 gate gate 0 tick sent=1
5 desk gate 1 job gate.0 busy=1 wait=0 done=0 lost=0
6 gate gate 2 tick sent=2
8 desk gate 3 job gate.1 busy=1 wait=1 done=0 lost=0
9 desk desk 0 done gate.0 busy=1 wait=0 done=1 lost=0
"#;

/// The snapshot of `BASE` at 13.
pub const SAVED_AT_13: &str = r#"snapshot base front 13 end -
station 1 next 4 drawn 2 handled 2 source 3 3 2
station 2 next 3 drawn 2 handled 3 server 1 5 4 4 1 1 0 line 0
station 3 next 0 drawn 0 handled 1 sink 1 8
pending 1
13 2 2 2 done 1.1.6
trace 6
3 gate gate 0 tick sent=1
5 desk gate 1 job gate.0 busy=1 wait=0 done=0 lost=0
6 gate gate 2 tick sent=2
8 desk gate 3 job gate.1 busy=1 wait=1 done=0 lost=0
9 desk desk 0 done gate.0 busy=1 wait=0 done=1 lost=0
11 out desk 1 job gate.0 got=1 stay=8
"#;

/// The snapshot of the opening stations.
pub const SAVED_AT_0: &str = r#"snapshot base front 0 end -
station 1 next 1 drawn 1 handled 0 source 3 3 0
station 2 next 0 drawn 0 handled 0 server 1 5 4 4 0 0 0 line 0
station 3 next 0 drawn 0 handled 0 sink 0 0
pending 1
3 1 0 1 tick
trace 0
"#;

/// The snapshot of `LATE_HIGH` at 9.
pub const LATE_HIGH_SAVED: &str = r#"snapshot base front 9 end -
station 1 next 4 drawn 2 handled 2 source 3 3 2
station 2 next 2 drawn 1 handled 1 source 7 7 1
station 3 next 1 drawn 1 handled 2 server 1 5 4 4 1 0 0 line 1 1.1.6
station 4 next 0 drawn 0 handled 0 sink 0 0
pending 2
9 2 1 3 job 2.0.7
9 3 0 3 done 1.0.3
trace 5
3 low low 0 tick sent=1
5 desk low 1 job low.0:2 busy=1 wait=0 done=0 lost=0
6 low low 2 tick sent=2
7 high high 0 tick sent=1
8 desk low 3 job low.1:2 busy=1 wait=1 done=0 lost=0
"#;

/// A snapshot of stations of each kind, for a clone with an end: two jobs wait, and a weight was changed.
pub const FIVE_KINDS_SAVED: &str = r#"snapshot night front 10 end 33
station 1 next 11 drawn 6 handled 5 source 1 3 5
station 2 next 4 drawn 4 handled 5 router 4 3 1
station 3 next 1 drawn 1 handled 1 delay 0 4 1
station 4 next 1 drawn 1 handled 3 server 1 3 2 6 1 0 0 line 2 1.2.3 1.1.2
station 5 next 0 drawn 0 handled 0 sink 0 0
pending 9
10 4 0 4 done 1.0.1
11 0 2 4 set room 1
11 1 9 2 job 1.4.9
11 2 3 4 job 1.3.6
12 1 10 1 tick
15 0 3 3 set hold 1 1
15 0 4 1 set every 1 1
17 0 1 4 set servers 2
21 0 5 4 set service 5 5
trace 14
1 gate gate 0 tick sent=1
2 gate gate 2 tick sent=2
3 fan gate 1 job gate.0 passed=1
3 gate gate 4 tick sent=3
4 fan gate 3 job gate.1 passed=2
5 fan gate 5 job gate.2 passed=3
6 fan analyst 0 set weight 1 3 passed=3
6 gate gate 6 tick sent=4
6 desk fan 0 job gate.0 busy=1 wait=0 done=0 lost=0
6 slow fan 1 job gate.1 passed=1
8 fan gate 7 job gate.3 passed=4
8 desk fan 2 job gate.2 busy=1 wait=1 done=0 lost=0
9 gate gate 8 tick sent=5
9 desk slow 0 job gate.1 busy=1 wait=2 done=0 lost=0
"#;

/// The decisions of three analysts on the clinic.
pub const CLINIC_SCRIPT: &str = r#"analyst ada
fork more_staff from base
set more_staff at 2000 reception servers 3
fork night from more_staff
set night at 6000 doctor servers 2
look night doctor
analyst ben
fork fast_xray from base
set fast_xray at 1500 xray service 4 8
fork two_xray from base
set two_xray at 1500 xray servers 2
analyst cyd
fork rush from base
set rush at 3000 arrivals every 2 5
fork rush_staff from rush
set rush_staff at 3000 doctor servers 5
fork no_room from base
set no_room at 500 doctor room 5
"#;
