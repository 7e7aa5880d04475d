//! Worked examples of network clocks, computed by the checker from the definitions. There is nothing to run.
ghost use Rattle.std.specs.Prelude.{◌≡◌, [], ◌∷◌};
ghost use Rattle.stations.specs.Examples.OneDesk.{one_desk};
ghost use Rattle.link_clocks.specs.Examples.{loop, ring, sink_alone, three_clocks, two_clocks};
ghost use Rattle.link_clocks.specs.NetClocks.{clock};

/// A source, a desk and a sink, one after the other: three rounds.
#[tactic(auto, unfolding(link_laws::specs::Clocks::clock))]
pub fn clocks_of_one_desk()
    ensures one { three_clocks one_desk 1 ≡ 20 ∷ 2 ∷ 2 ∷ [] }
    ensures two { three_clocks one_desk 2 ≡ 20 ∷ 20 ∷ 4 ∷ [] }
    ensures three { three_clocks one_desk 3 ≡ 20 ∷ 20 ∷ 20 ∷ [] }
{}

/// A station without an inbound link is at the horizon after one round. In a ring the clocks rise together. A link of a
/// station to itself does not count.
#[tactic(auto, unfolding(link_laws::specs::Clocks::clock))]
pub fn clocks_of_small_networks()
    ensures alone { clock sink_alone 1 1 ≡ 10 }
    ensures ring_one { two_clocks ring 1 ≡ 5 ∷ 3 ∷ [] }
    ensures ring_two { two_clocks ring 2 ≡ 8 ∷ 8 ∷ [] }
    ensures ring_three { two_clocks ring 3 ≡ 10 ∷ 10 ∷ [] }
    ensures loop_one { two_clocks loop 1 ≡ 10 ∷ 4 ∷ [] }
    ensures loop_two { two_clocks loop 2 ≡ 10 ∷ 10 ∷ [] }
{}
