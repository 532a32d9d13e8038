ghost use Rattle.std.specs.Prelude.{◌≡◌, ℕ, List, is_none, false, length};
ghost use Rattle.std.specs.Option.{option_map};
ghost use Rattle.sk_base.specs.SoundSketch.{IsLength, IsSoundRatio};
ghost use Rattle.sk_lines.specs.Quantities.{is_zero, length_of, ratio_of, um, ratio};

/// A word that reads as a length or as a ratio, and isn't 0, stands for one within the limits of a sketch.
pub fn quantities_are_sound()
    ensures length { (word : List ℕ) → is_none (length_of word) ≡ false → is_zero (length_of word) ≡ false → IsLength (um word) }
    ensures ratio { (word : List ℕ) → is_none (ratio_of word) ≡ false → is_zero (option_map (λ parts. parts.0) (ratio_of word)) ≡ false → IsSoundRatio (ratio word) }
{}
