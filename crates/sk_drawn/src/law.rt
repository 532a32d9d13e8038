// The law on drawn values, the contract of a function with nothing to do.
ghost use Rattle.std.specs.Prelude.{◌≡◌, unsigned_abs};
ghost use Rattle.sk_base.specs.declared.Elem.{Elem};
ghost use Rattle.sk_base.specs.declared.Ratio.{Ratio};
ghost use Rattle.sk_base.specs.declared.Rule.TheVariants.{Angle, Distance};
ghost use Rattle.sk_base.specs.declared.Sketch.{Sketch};
ghost use Rattle.sk_base.specs.declared.Um.{Um};
ghost use Rattle.sk_drawn.specs.DrawnValues.{IsDrawnValue};

/// Between two elements one length is drawn, and between two lines one ratio.
pub fn one_value()
    ensures length { (s : Sketch) (u v : Elem) (one other : Um) → IsDrawnValue s (Distance u v one) → IsDrawnValue s (Distance u v other) → unsigned_abs one.0 ≡ unsigned_abs other.0 }
    ensures ratio { (s : Sketch) (l m : Elem) (one other : Ratio) → IsDrawnValue s (Angle l m one) → IsDrawnValue s (Angle l m other) → one ≡ other }
{}
