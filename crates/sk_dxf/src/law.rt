// What the segments of lines mean.
ghost use Rattle.std.specs.Prelude.{ℤ, List, ◌∷◌};
ghost use Rattle.sk_dxf.specs.Segments.{reach, Spans};

/// A segment reaches from one neighbour to another, and past none.
pub fn segments_span_the_neighbours()
    ensures { (s : ℤ) → (places : List ℤ) → Spans (s ∷ places) (reach (s ∷ places)) }
{}
