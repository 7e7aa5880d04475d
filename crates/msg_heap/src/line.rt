//! The counts of a station after a message in one word, if they are small enough, as those of a run are.
ghost use Rattle.std.specs.Prelude.{◌≡◌, ◌<◌, IfSome, IfNone};
ghost use Rattle.sim_base.specs.declared.entry.Line.TheVariants.{Source, Server, Passed, Sink};
ghost use Rattle.msg_heap.specs.Lines.{FitsLine, FitsOne, FitsServer, FitsSink, line_of};

use sim_base::Line;
use std::marker::Model;

/// The number of words of one kind: the 61 bits below the kind.
pub const WORDS_OF_KIND: u64 = 1 << 61;

/// The number of sums of stays that a sink's word holds: 46 bits.
pub const STAY_SUMS: u64 = 1 << 46;

/// Counts in 8 bytes.
///
/// A sink has the highest bit, the arrived jobs in 17 bits, and the sum of their times in 46. The others have a kind in
/// three bits, and below it one number, or for a server: in service 5 bits (and 3 that are 0), waiting 13, done 20,
/// lost 20.
#[derive(Clone, Copy)]
pub struct PackedLine {
    word: u64,
}

impl Model for PackedLine {
    ghost use Rattle.sim_base.specs.declared.entry.Line.{Line};
    ghost use Rattle.msg_heap.specs.Lines.{line_of, packed_line, IsLine};

    ghost Value = { Line };

    ghost view = { λ p. line_of p.word };

    ghost invariant = { λ p. IsLine p.word };

    ghost inverse = { λ l. record { word = packed_line l } };

    ghost inverse_ok = { λ p h i. record { word = h i } };
}

impl PackedLine {
    /// The counts in 8 bytes, or None if one is too large.
    pub fn of(line: &Line) -> Option<PackedLine>
        ensures value { IfSome result (λ p. p ≡ line.now) }
        ensures none { IfNone result (¬ FitsLine line.now) }
    {
        match *line {
            Line::Source { sent } if sent < WORDS_OF_KIND => Some(PackedLine::source(sent)),
            Line::Server {
                busy,
                wait,
                done,
                lost,
            } if busy < 1 << 5 && wait < 1 << 13 && done < 1 << 20 && lost < 1 << 20 => {
                Some(PackedLine::server(busy, wait, done, lost))
            }
            Line::Passed { passed } if passed < WORDS_OF_KIND => Some(PackedLine::passed(passed)),
            Line::Sink { got, stay } if got < 1 << 17 && stay < STAY_SUMS => {
                Some(PackedLine::sink(got, stay))
            }
            _ => None,
        }
    }

    /// A source's counts.
    #[inline(always)]
    pub fn source(sent: u64) -> PackedLine
        requires fits { FitsOne sent }
        ensures value { result ≡ Source sent }
    {
        PackedLine { word: sent }
    }

    /// A server's counts.
    #[inline(always)]
    pub fn server(busy: u64, wait: u64, done: u64, lost: u64) -> PackedLine
        requires fits { FitsServer busy wait done lost }
        ensures value { result ≡ Server busy wait done lost }
    {
        PackedLine {
            word: (((256 + busy) * 8_192 + wait) * 1_048_576 + done) * 1_048_576 + lost,
        }
    }

    /// The count of a delay or a router.
    #[inline(always)]
    pub fn passed(passed: u64) -> PackedLine
        requires fits { FitsOne passed }
        ensures value { result ≡ Passed passed }
    {
        PackedLine {
            word: 2 * WORDS_OF_KIND + passed,
        }
    }

    /// A sink's counts.
    #[inline(always)]
    pub fn sink(got: u64, stay: u64) -> PackedLine
        requires fits { FitsSink got stay }
        ensures value { result ≡ Sink got stay }
    {
        PackedLine {
            word: (131_072 + got) * STAY_SUMS + stay,
        }
    }

    /// The word.
    #[inline(always)]
    pub fn word(self) -> u64
        ensures value { line_of result ≡ self }
    {
        self.word
    }

    /// The counts.
    #[inline(always)]
    pub fn line(self) -> Line
        ensures value { result ≡ self }
    {
        let word = self.word;
        let kind = word >> 61;
        if kind >= 4 {
            Line::Sink {
                got: (word >> 46) % (1 << 17),
                stay: word % (1 << 46),
            }
        } else if kind >= 2 {
            Line::Passed {
                passed: word % (1 << 61),
            }
        } else if kind == 1 {
            Line::Server {
                busy: (word >> 53) % (1 << 5),
                wait: (word >> 40) % (1 << 13),
                done: (word >> 20) % (1 << 20),
                lost: word % (1 << 20),
            }
        } else {
            Line::Source { sent: word }
        }
    }
}
