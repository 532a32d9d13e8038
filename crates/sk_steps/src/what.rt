//! The names of quantities.
ghost use Rattle.std.specs.Prelude.{◌≡◌};

/// A quantity of a frame, a construction, a motion, a carried box or a settled one.
#[derive(Clone, Copy, PartialEq, Eq, Debug)]
pub enum What {
    Base2,
    Base,
    First2,
    Second2,
    Foot,
    Height,
    Ex,
    Ey,
    Gap1,
    Gap2,
    Tilt,
    Rise,
    Lift,
    Reach,
    Cos,
    Sin,
    Det,
    F,
    G,
    X,
    Y,
    A,
    B,
    C,
    Span2,
    Fx,
    Fy,
    Tx,
    Ty,
    Det1,
    Det2,
    Size,
}

impl What {
    ghost use Rattle.sk_steps.specs.Words.{word_of};

    /// Its word, as it is printed.
    pub fn word(self) -> &'static str
        ensures { result.now ≡ word_of self }
    {
        match self {
            What::Base2 => "base2",
            What::Base => "base",
            What::First2 => "first2",
            What::Second2 => "second2",
            What::Foot => "foot",
            What::Height => "height",
            What::Ex => "ex",
            What::Ey => "ey",
            What::Gap1 => "gap1",
            What::Gap2 => "gap2",
            What::Tilt => "tilt",
            What::Rise => "rise",
            What::Lift => "lift",
            What::Reach => "reach",
            What::Cos => "cos",
            What::Sin => "sin",
            What::Det => "det",
            What::F => "f",
            What::G => "g",
            What::X => "x",
            What::Y => "y",
            What::A => "a",
            What::B => "b",
            What::C => "c",
            What::Span2 => "span2",
            What::Fx => "fx",
            What::Fy => "fy",
            What::Tx => "tx",
            What::Ty => "ty",
            What::Det1 => "det1",
            What::Det2 => "det2",
            What::Size => "size",
        }
    }
}
