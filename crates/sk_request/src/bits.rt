// Grids by their binary digits.
ghost use Rattle.std.specs.Prelude.{◌≡◌};

/// How many binary digits the grid has that elements are placed on.
#[derive(Clone, Copy, Debug, PartialEq, Eq)]
pub enum Bits {
    Sixteen,
    TwentySeven,
    ThirtyEight,
}

impl Bits {
    ghost use Rattle.sk_request.specs.Grids.{digits_of};

    /// The number of digits.
    pub fn count(self) -> u32
        ensures { result ≡ digits_of self }
    {
        match self {
            Bits::Sixteen => 16,
            Bits::TwentySeven => 27,
            Bits::ThirtyEight => 38,
        }
    }
}
