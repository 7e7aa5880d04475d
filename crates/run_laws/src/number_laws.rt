//! The laws of sequence numbers: bounds on the numbers of a run's messages.
//!
//! `specs/Numbers.antt` states them. They show that a message's time, sender and number fit one machine word if the
//! limits of a simulation allow it.
ghost use Rattle.std.specs.Prelude.{ℕ, List};
ghost use Rattle.run_laws.specs.Simulation.{Simulation};
ghost use Rattle.run_laws.specs.Numbers.{UsesFewNumbers, NumbersAreLow, NumbersFit};

use crate::laws::NumberingStations;

/// A simulation whose stations use a bounded number of sequence numbers for each message.
pub trait Frugal<S, M, N>: NumberingStations<S, M, N> {
    ghost most: { ℕ };

    ghost at_most: { UsesFewNumbers Self.sim Self.good Self.next most };
}

/// Bounds on the sequence numbers of a run's messages: by the messages that their senders handled, and by the limit.
pub fn numbers_are_low<S, M, N, T: Frugal<S, M, N>>()
    ensures low { NumbersAreLow T.sim T.sender T.number T.most }
    ensures fit { NumbersFit T.sim T.sender T.number T.most }
{}
