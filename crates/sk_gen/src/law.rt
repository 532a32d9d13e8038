// What holds of every datum sketch.
ghost use Rattle.std.specs.Prelude.{ℕ, ◌≤◌};
ghost use Rattle.sk_base.specs.SoundSketch.{IsSoundSketch};
ghost use Rattle.sk_gen.specs.DatumSketch.{datum_sketch};

/// Every datum sketch of 3 to 1000 elements is a sound sketch.
pub fn datum_sketch_is_sound()
    ensures { (n : ℕ) → 3 ≤ n → n ≤ 1000 → IsSoundSketch (datum_sketch n) }
{}
