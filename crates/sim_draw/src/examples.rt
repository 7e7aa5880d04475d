//! Worked examples, computed by the checker: the words of the definitions are those of PCG's own program.
ghost use Rattle.std.specs.Prelude.{◌≡◌};
ghost use Rattle.sim_draw.specs.Drawing.{word, range_of};

/// The first three words of seed 42 and stream 54, as PCG's reference program prints them.
pub fn reference_words()
    ensures first { word 42 54 0 ≡ 0xa15c02b7 }
    ensures second { word 42 54 1 ≡ 0x7b47f409 }
    ensures third { word 42 54 2 ≡ 0xba1d3330 }
{}

/// Three numbers from 1 to 10, by these words.
pub fn reference_ranges()
    ensures first { range_of 1 10 (record { seed = 42; stream = 54; count = 0 }) ≡ 4 }
    ensures second { range_of 1 10 (record { seed = 42; stream = 54; count = 1 }) ≡ 8 }
    ensures third { range_of 1 10 (record { seed = 42; stream = 54; count = 2 }) ≡ 5 }
{}
