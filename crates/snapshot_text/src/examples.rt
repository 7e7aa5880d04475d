//! A worked snapshot, computed by the checker from the definitions. The function's contract is a theorem; there is
//! nothing to run.
ghost use Rattle.std.specs.Prelude.{◌≡◌, ◌++◌, codes, Ok, Err};
ghost use Rattle.stations.specs.Examples.OneDesk.{one_desk};
ghost use Rattle.checkpoint.specs.Examples.{base_at_10};
ghost use Rattle.snapshot_text.specs.Examples.{head_at_10, saved_text};
ghost use Rattle.snapshot_text.specs.Reading.{snapshot};
ghost use Rattle.snapshot_text.specs.SnapshotTexts.{text_of};
ghost use Rattle.snapshot_text.specs.declared.fault.SnapshotFault.TheVariants.{BadFront, BadLine, Unfit};

/// The first example at 10: its text, what the text states, and the faults of other texts. The desk may have handled
/// 16,384 messages, and the horizon is 20.
pub fn desk_at_10()
    ensures written { text_of one_desk base_at_10 ≡ saved_text head_at_10 (codes "3") }
    ensures read { snapshot one_desk (saved_text head_at_10 (codes "3")) ≡ Ok base_at_10 }
    ensures unfit { snapshot one_desk (saved_text head_at_10 (codes "16385")) ≡ Err (Unfit 2) }
    ensures front { snapshot one_desk (saved_text (codes "snapshot base front 21 end -") (codes "16385"))
        ≡ Err BadFront }
    ensures zero { snapshot one_desk (saved_text head_at_10 (codes "03")) ≡ Err (BadLine 3) }
    ensures missing { snapshot one_desk (head_at_10 ++ codes "\n") ≡ Err (BadLine 2) }
    ensures unended { snapshot one_desk head_at_10 ≡ Err (BadLine 1) }
    ensures surplus { snapshot one_desk (saved_text head_at_10 (codes "3") ++ codes "\n") ≡ Err (BadLine 14) }
{}
