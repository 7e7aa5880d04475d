//! The request of a command line: what to do, and with how many workers.
ghost use Rattle.std.specs.Prelude.{◌≤◌};
ghost use Rattle.command_words.specs.declared.request.TheConstants.{MAX_WORKERS};

use sim_base::Name;

/// The maximum number of workers.
pub const MAX_WORKERS: u32 = sim_base::limits::MAX_WORKERS;

/// The greatest number from which a study may be generated.
pub(crate) const MAX_STUDY: u32 = 999_999;

/// The greatest time that `--until` accepts.
pub(crate) const MAX_UNTIL: u32 = 4_294_967_295;

/// The mode of a study whose decisions are all made first: which clones are run, and what is written of them.
#[derive(Clone, Copy, Debug, PartialEq, Eq)]
pub enum Mode {
    /// All of them: their traces and the report.
    Run,
    /// All of them: the report only.
    Report,
    /// All of them: the statistics of their servers.
    Stats,
    /// All of them, in rounds with a clock for each station: their traces, the report, and the number of rounds.
    Links,
    /// The named clone alone: its trace.
    Solo(Name),
    /// The named clone alone, until a time: its snapshot.
    Save { clone: Name, until: u32 },
}

/// The source of the model and the script.
#[derive(Clone, Copy, Debug)]
pub enum Source<'a> {
    /// Two files by their names, the model and the script.
    FileNames { model: &'a str, script: &'a str },
    /// Both are generated from this number.
    Number(u32),
}

/// The assignment of a command line: what to do, without the number of workers.
#[derive(Clone, Copy, Debug)]
pub enum Assignment<'a> {
    /// A study of a model and a script.
    Study {
        source: Source<'a>,
        mode: Mode,
    },
    /// A study of two files, the model and the script, whose analysts decide while it runs.
    Live {
        model: &'a str,
        script: &'a str,
    },
    /// A study of three files, the model, the script and the watches, which create branches while it runs.
    Watch {
        model: &'a str,
        script: &'a str,
        watches: &'a str,
    },
    /// The rest of a clone's run, from two files, the model and a snapshot of the clone.
    Resume {
        model: &'a str,
        snapshot: &'a str,
    },
}

/// The request of a command line: what to do, and with how many workers.
#[derive(Clone, Copy, Debug)]
pub struct Request<'a> {
    /// What to do.
    pub assignment: Assignment<'a>,
    /// The number of workers, from 1 to [`MAX_WORKERS`].
    pub workers: u32,
    ghost some: { 1 ≤ workers },
    ghost at_most: { workers ≤ MAX_WORKERS },
}

/// Why there is no request.
#[derive(Clone, Copy, Debug, PartialEq, Eq)]
pub enum WordsFault {
    /// Out of memory.
    NoMemory,
    /// The command line has no known form.
    Usage,
}
