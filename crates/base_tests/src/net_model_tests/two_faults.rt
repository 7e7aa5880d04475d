//! Model texts with two faults, and the fault that is reported.

use super::changes::Refused;

/// Changes to the small model after which two things are wrong, and the refusal that is reported.
pub const FIRST_OF_TWO: &[Refused] = &[
    Refused {
        shows: "a key that a server does not have comes before one that it lacks",
        old: "room = 5",
        new: "zeal = 1",
        number: 5,
        place: 2,
        key: "zeal",
    },
    Refused {
        shows: "an interarrival time comes before the number of jobs",
        old: "every = [3, 3]\njobs = 2",
        new: "every = [0, 3]",
        number: 8,
        place: 1,
        key: "every",
    },
    Refused {
        shows: "the number of links comes before what they lack",
        old: r#"link = [{ to = "out", delay = 2 }]"#,
        new: "link = [{}, {}, {}, {}, {}, {}, {}, {}, {}, {}, {}, {}, {}, {}, {}, {}, {}]",
        number: 12,
        place: 2,
        key: "",
    },
    Refused {
        shows: "an unknown key of a link comes before what it lacks",
        old: r#"link = [{ to = "out", delay = 2 }]"#,
        new: "link = [{ speed = 1 }]",
        number: 5,
        place: 2,
        key: "speed",
    },
    Refused {
        shows: "the name that a link goes to comes before its delay",
        old: r#"link = [{ to = "out", delay = 2 }]"#,
        new: r#"link = [{ to = "Out", delay = 0 }]"#,
        number: 6,
        place: 2,
        key: "",
    },
    Refused {
        shows: "a delay comes before a weight",
        old: r#"link = [{ to = "out", delay = 2 }]"#,
        new: r#"link = [{ to = "out", delay = 0, weight = 0 }]"#,
        number: 8,
        place: 2,
        key: "delay",
    },
    Refused {
        shows: "an unknown station comes before a short delay",
        old: r#"link = [{ to = "out", delay = 2 }]"#,
        new: r#"link = [{ to = "exit", delay = 1 }]"#,
        number: 9,
        place: 2,
        key: "",
    },
    Refused {
        shows: "a link into a source comes before a short delay",
        old: r#"link = [{ to = "out", delay = 2 }]"#,
        new: r#"link = [{ to = "gate", delay = 1 }]"#,
        number: 14,
        place: 2,
        key: "",
    },
];
