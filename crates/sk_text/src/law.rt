ghost use Rattle.std.specs.Prelude.{◌≡◌, ◌≤◌, ℤ, Some};
ghost use Rattle.sk_base.specs.Millimetres.{mm_of};
ghost use Rattle.sk_base.specs.Spelling.{magnitude, mm_text};

/// What `put_mm` writes of a coordinate reads as that coordinate.
pub fn coordinates_read_back()
    ensures { (um : ℤ) → magnitude um ≤ 1000000000 → mm_of (mm_text um) ≡ Some um }
{}
