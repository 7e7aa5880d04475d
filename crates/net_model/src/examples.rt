//! Worked examples, computed by the checker from the definition of a text's model.
//!
//! The texts are in `specs/Examples.antt`. Each function's contract is a theorem; there is nothing to run.
ghost use Rattle.std.specs.Prelude.{◌≡◌, ◌++◌, [], Ok, Err, codes};
ghost use Rattle.sim_base.specs.declared.limits.TheConstants.{MAX_FILE_BYTES};
ghost use Rattle.sim_base.specs.declared.name.TheConstants.{MAX_NAME_LEN};
ghost use Rattle.net_model.specs.Text.{model};
ghost use Rattle.net_model.specs.Examples.{cut_text, linked_desk, linked_out, named_desk, sinks, small};
ghost use Rattle.net_model.specs.Examples.{small_text, timed_desk, top_text, top_with, with_top, without_link};
ghost use Rattle.net_model.specs.declared.field.Field.TheVariants.{Lookahead, Horizon, Service};
ghost use Rattle.net_model.specs.declared.key_text.TheConstants.{MAX_KEY_TEXT_LEN};
ghost use Rattle.net_model.specs.declared.limits.TheConstants.{MAX_CLASS, MAX_HORIZON, MAX_JOBS};
ghost use Rattle.net_model.specs.declared.limits.TheConstants.{MAX_LIMIT, MAX_LINKS, MAX_ROOM, MAX_SEED};
ghost use Rattle.net_model.specs.declared.limits.TheConstants.{MAX_SERVERS, MAX_STATIONS, MAX_TIME, MAX_WEIGHT};
ghost use Rattle.net_model.specs.declared.limits.TheConstants.{USUAL_LIMIT};

use crate::fault::ModelFault;

/// A text and its model.
pub fn small_model()
    ensures { model small_text ≡ Ok small }
{}

/// Texts that are refused for their top level, or for their form.
pub fn refused_at_the_top()
    ensures empty { model [] ≡ Err (ModelFault.Missing 0 Lookahead) }
    ensures unknown { model (codes "speed = 3\n" ++ small_text) ≡ Err (ModelFault.UnknownKey 0 (codes "speed")) }
    ensures no_number { model (with_top (top_with (codes "\"2\"") (codes "20")))
        ≡ Err (ModelFault.WrongType 0 Lookahead) }
    ensures no_time { model (with_top (top_with (codes "2") (codes "0"))) ≡ Err (ModelFault.OutOfRange 0 Horizon) }
    ensures cut { model cut_text ≡ Err ModelFault.NotToml }
    ensures crowd { model (top_text ++ sinks 65) ≡ Err (ModelFault.TooMany 0) }
{}

/// Texts that are refused for a station's own keys.
pub fn refused_stations()
    ensures twice { model (named_desk (codes "gate")) ≡ Err (ModelFault.NameTwice 2) }
    ensures capital { model (named_desk (codes "Desk")) ≡ Err (ModelFault.BadName 2) }
    ensures analyst { model (named_desk (codes "analyst")) ≡ Err (ModelFault.BadName 2) }
    ensures three { model (timed_desk (codes "[4, 4, 4]")) ≡ Err (ModelFault.WrongType 2 Service) }
    ensures falling { model (timed_desk (codes "[5, 4]")) ≡ Err (ModelFault.OutOfRange 2 Service) }
    ensures open { model linked_out ≡ Err (ModelFault.UnknownKey 3 (codes "link")) }
{}

/// Texts that are refused for the target of a link, or for a missing link.
pub fn refused_links()
    ensures nowhere { model (linked_desk (codes "exit")) ≡ Err (ModelFault.UnknownStation 2) }
    ensures back { model (linked_desk (codes "gate")) ≡ Err (ModelFault.IntoSource 2) }
    ensures none { model without_link ≡ Err (ModelFault.NoWayOut 1) }
{}

/// The limits as numbers, as the format of model files has them.
pub fn limits_in_numbers()
    ensures bytes { MAX_FILE_BYTES ≡ 1048576 }
    ensures name { MAX_NAME_LEN ≡ 16 }
    ensures stations { MAX_STATIONS ≡ 64 }
    ensures links { MAX_LINKS ≡ 16 }
    ensures time { MAX_TIME ≡ 1000000 }
    ensures horizon { MAX_HORIZON ≡ 1000000000 }
    ensures seed { MAX_SEED ≡ 9223372036854775807 }
    ensures limit { MAX_LIMIT ≡ 65536 }
    ensures usual_limit { USUAL_LIMIT ≡ 16384 }
    ensures jobs { MAX_JOBS ≡ 1000000 }
    ensures class { MAX_CLASS ≡ 4 }
    ensures servers { MAX_SERVERS ≡ 16 }
    ensures room { MAX_ROOM ≡ 4096 }
    ensures weight { MAX_WEIGHT ≡ 1000 }
    ensures key_text { MAX_KEY_TEXT_LEN ≡ 32 }
{}
