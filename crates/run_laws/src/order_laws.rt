//! The laws of clones in another order: each function's contract is a law, and there is nothing to run.
//!
//! `specs/Orders.antt` states them.
ghost use Rattle.run_laws.specs.Orders.{FiguresIgnoreOrder, OrderIsPermutation};

use crate::laws::Stations;

/// The figures of a report do not depend on the order in which the clones were made.
pub fn figures_ignore_order<S, M, N, T: Stations<S, M, N>>()
    ensures permutation { OrderIsPermutation }
    ensures figures { FiguresIgnoreOrder T.sim }
{}
