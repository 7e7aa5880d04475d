//! Texts of scripts, and how each is read.
use sample_models::{EQUAL_SCRIPT, OWN_SCRIPT_OF_B};

/// What is wrong with a text, the text, and the number and the line of its refusal.
pub type Refused = (&'static str, &'static [u8], u32, u32);

/// One row for each form of fault.
pub const FAULTS: &[Refused] = &[
    ("no ASCII in a comment", b"# caf\xc3\xa9", 2, 1),
    (
        "the same in the second line",
        b"look base desk\n# caf\xc3\xa9\n",
        2,
        2,
    ),
    ("no UTF-8", b"look \xff", 2, 1),
    ("a cut line", b"set base at 8 desk serv", 3, 1),
    (
        "a cut line, with its end",
        b"set base at 8 desk serv\n",
        3,
        1,
    ),
    (
        "a last line without a station, behind lines of both ends",
        b"\r\n\nlook base desk\r\nlook base\r",
        3,
        4,
    ),
    (
        "a second line without a station",
        b"look base desk\r\nlook base\r\nlook\r\n",
        3,
        2,
    ),
    ("an analyst without a name", b"analyst", 3, 1),
    ("an analyst of two names", b"analyst ada ben", 3, 1),
    ("a capital in an analyst's name", b"analyst Ada", 3, 1),
    ("a name of 17 bytes", b"analyst abcdefghijklmnopq", 3, 1),
    ("a fork without from", b"fork a base", 3, 1),
    ("another word for from", b"fork a of base", 3, 1),
    ("a word too many of a fork", b"fork a from base again", 3, 1),
    ("a digit before a name", b"fork a from 1st", 3, 1),
    ("another word for at", b"set base to 8 desk room 1", 3, 1),
    (
        "a parameter without a value",
        b"set base at 8 desk room",
        3,
        1,
    ),
    (
        "a second value of room",
        b"set base at 8 desk room 1 2",
        3,
        1,
    ),
    (
        "a second value of servers",
        b"set base at 8 desk servers 1 2",
        3,
        1,
    ),
    ("one value of two", b"set base at 8 desk every 1", 3, 1),
    ("a third value", b"set base at 8 desk weight 1 2 3", 3, 1),
    ("an unknown parameter", b"set base at 8 desk speed 1", 3, 1),
    (
        "a capital in a station's name",
        b"set base at 8 Desk room 1",
        3,
        1,
    ),
    ("an end without at", b"end base 8", 3, 1),
    ("a word too many of an end", b"end base at 8 9", 3, 1),
    ("a look without a station", b"look base", 3, 1),
    ("a look at two stations", b"look base desk desk", 3, 1),
    ("a CR between two words", b"look base\rdesk desk", 3, 1),
    (
        "a CR before the end of the line",
        b"look base desk\r\r\n",
        3,
        1,
    ),
    ("a capital in a first word", b"Look base desk", 3, 1),
    ("a comment behind a look", b"look base desk # why", 3, 1),
    (
        "a form comes before a number",
        b"set base at 08 desk serv",
        3,
        1,
    ),
    ("a leading zero", b"end base at 08", 4, 1),
    ("two zeros", b"end base at 00\r", 4, 1),
    ("a sign", b"end base at -1", 4, 1),
    ("a letter in a number", b"end base at 9x", 4, 1),
    ("a number of 33 bits", b"end base at 4294967296", 4, 1),
    (
        "the greatest number of ten digits",
        b"end base at 9999999999",
        4,
        1,
    ),
    (
        "a number of eleven digits",
        b"end base at 10000000000",
        4,
        1,
    ),
    (
        "a leading zero of a time",
        b"set base at 08 desk service 2 2",
        4,
        1,
    ),
    (
        "a leading zero of a first value",
        b"set base at 8 desk service 02 2",
        4,
        1,
    ),
    (
        "a leading zero of a second value",
        b"set base at 8 desk service 2 02",
        4,
        1,
    ),
    ("a letter for a value", b"set base at 8 desk room x", 4, 1),
    (
        "a number before a form in a later line",
        b"end base at 8\nend base at 09\nlook\n",
        4,
        2,
    ),
];

/// Texts that are read.
pub const READ: &[&str] = &[
    "",
    "\n",
    "\r\n\r\n",
    "\r",
    " \t \t",
    "#",
    " # end base at 08",
    "#look\nlook base desk",
    "\tlook\tbase \t desk \r\n",
    "analyst main\nanalyst main",
    "analyst abcdefghijklmnop",
    "end base at 0",
    "end base at 1000000000",
    "end base at 4294967295",
    "set base at 0 desk every 0 4294967295\nset base at 0 desk hold 0 0\nset base at 0 desk servers 0",
];

/// A text, a clone or no name, and the canonical text of that clone's own script or of the whole script. The lines and
/// analysts of its items follow.
pub struct Own {
    /// What the row shows.
    pub shows: &'static str,
    /// The text of a script.
    pub text: &'static str,
    /// The clone whose own script is printed, or no name for the whole one.
    pub who: &'static str,
    /// What is printed.
    pub canonical: &'static str,
    /// The line and the analyst of each item that is printed.
    pub places: &'static [(u32, u32)],
}

const PLANNERS: &str =
    "set base at 1 desk every 1 2\r\n\nanalyst ben\n# ben\nfork b from base\nset base at 2 desk hold 3 4\nanalyst ada\nset b at 3 desk servers 5\nanalyst main\nlook b desk\nend base at 9\nanalyst ben\nend b at 4";

/// One row for each way to print.
pub const OWN_SCRIPTS: &[Own] = &[
    Own {
        shows: "a whole script, as it stands",
        text: EQUAL_SCRIPT,
        who: "",
        canonical: EQUAL_SCRIPT,
        places: &[(1, 1), (2, 1), (3, 1), (4, 1)],
    },
    Own {
        shows: "the own script of one of two clones",
        text: EQUAL_SCRIPT,
        who: "b",
        canonical: OWN_SCRIPT_OF_B,
        places: &[(2, 1), (4, 1)],
    },
    Own {
        shows: "a clone that is not there",
        text: EQUAL_SCRIPT,
        who: "c",
        canonical: "",
        places: &[],
    },
    Own {
        shows: "a whole script of three analysts",
        text: PLANNERS,
        who: "",
        canonical: "analyst ben
analyst ada
analyst main
set base at 1 desk every 1 2
analyst ben
fork b from base
set base at 2 desk hold 3 4
analyst ada
set b at 3 desk servers 5
analyst main
look b desk
end base at 9
analyst ben
end b at 4
",
        places: &[(1, 1), (5, 2), (6, 2), (8, 3), (10, 1), (11, 1), (13, 2)],
    },
    Own {
        shows: "the own script of a clone, with its analysts",
        text: PLANNERS,
        who: "b",
        canonical: "analyst ben
analyst ada
analyst main
set base at 1 desk every 1 2
analyst ben
fork b from base
analyst ada
set b at 3 desk servers 5
analyst ben
end b at 4
",
        places: &[(1, 1), (5, 2), (8, 3), (13, 2)],
    },
    Own {
        shows: "the own script of the base",
        text: PLANNERS,
        who: "base",
        canonical: "analyst ben
analyst ada
analyst main
set base at 1 desk every 1 2
analyst ben
set base at 2 desk hold 3 4
analyst main
end base at 9
",
        places: &[(1, 1), (6, 2), (11, 1)],
    },
];
