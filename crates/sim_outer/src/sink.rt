//! Sinks, which take bytes piece by piece.
ghost use Rattle.std.specs.Prelude.{◌≡◌, ◌≤◌, OnOk, OnErr};
ghost use Rattle.sim_outer.specs.Bytes.{IsAppended, IsPrefixAppended};
ghost use Rattle.sim_outer.specs.Counts.{IsCounted, HasRisen};
ghost use Rattle.sim_outer.specs.Views.{SinkView};

/// A piece was not taken whole.
#[derive(Clone, Copy, Debug, PartialEq, Eq)]
pub struct PutFailed;

/// A sink for bytes, which takes them piece by piece.
pub trait Sink {
    // the bytes taken and the number of calls, if the contract knows them, and the faults
    ghost view: { Self → SinkView };

    /// Takes a piece, or fails after a prefix of it. Taking nothing of a nonempty piece is a fault. Allocates nothing.
    fn put(&mut self, piece: &[u8]) -> Result<(), PutFailed>
        ensures ok { OnOk result (IsAppended (view self.old).bytes piece.now (view self.new).bytes) }
        ensures part { OnErr result (IsPrefixAppended (view self.old).bytes piece.now (view self.new).bytes) }
        ensures cause { OnErr result (HasRisen (view self.old).faults (view self.new).faults) }
        ensures later { (view self.old).faults ≤ (view self.new).faults }
        ensures counted { IsCounted (view self.old).calls (view self.new).calls };

    /// Takes a part of the next piece, or fails after a prefix of the part; a `put` takes the rest of the piece. All
    /// parts and the rest are one call, which ends if a part fails. Allocates nothing.
    fn put_part(&mut self, part: &[u8]) -> Result<(), PutFailed>
        ensures ok { OnOk result (IsAppended (view self.old).bytes part.now (view self.new).bytes) }
        ensures part { OnErr result (IsPrefixAppended (view self.old).bytes part.now (view self.new).bytes) }
        ensures cause { OnErr result (HasRisen (view self.old).faults (view self.new).faults) }
        ensures later { (view self.old).faults ≤ (view self.new).faults }
        ensures same { OnOk result ((view self.new).calls ≡ (view self.old).calls) }
        ensures counted { OnErr result (IsCounted (view self.old).calls (view self.new).calls) };
}
