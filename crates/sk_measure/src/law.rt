// What holds of placements.
ghost use Rattle.sk_base.specs.declared.Graph.{Graph};
ghost use Rattle.sk_base.specs.declared.Placed.{Placed};
ghost use Rattle.sk_base.specs.SoundGraph.{HasRisingNodes};
ghost use Rattle.sk_measure.specs.Placing.{AreSpotsOf, PlacesExactly};

/// Spots for the nodes one by one, in order, place just the nodes.
pub fn placed_in_order()
    ensures { (g : Graph) (p : Placed) → HasRisingNodes g → AreSpotsOf g.nodes p.spots → PlacesExactly g p }
{}
