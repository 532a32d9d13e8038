//! The drawing of two datum lines, grown to a size.

/// The least one, and one of 1,000 elements.
pub const GROWN: &str = "
$ grow n=3
> 0
grow 3
elements 3
constraints 3
verdict well
steps 1
sum x 18000000 nm
sum y 32000000 nm
length tolerance 0 nm at c2
angle tolerance 0 ppb at line X
$ grow n=1000
> 0
grow 1000
elements 1000
constraints 1997
verdict well
steps 998
sum x 347815000000 nm
sum y 250029000000 nm
length tolerance 0 nm at c2
angle tolerance 0 ppb at line X
";
