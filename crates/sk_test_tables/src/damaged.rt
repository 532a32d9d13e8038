//! A small sketch, cut before each of its bytes, and with each byte changed: what each text is answered.
//!
//! A mask has a mark for each byte of the sketch, line below line, the last mark of a line for its line feed.

pub const TRIANGLE: &[u8] =
    b"sketch 1\npoint A 0 0\npoint B 4 0\npoint C 4 3\ndistance A B 4\ndistance A C 5\ndistance B C 3\nend\n";

pub const REPORT: &str = "\
0
verdict well
elements 3
constraints 3
parts 1
part 1 sound elements 3 held 3 due 3 : A B C
";

/// Cut before that byte.
pub const CUT: &str = "
01111111e
E2222333333e
E2222333333e
E2222333333e
E2222222333333e
E2222222333333e
E2222222333333e
E22.";

/// A blank or a tab in its place.
pub const BLANK: &str = "
111111.11
22222.3.3.33
22222.3.3.33
22222.3.3.33
22222222.3.3.33
22222222.3.3.33
22222222.3.3.33
222.";

/// A line feed in its place.
pub const LINE_FEED: &str = "
h1111111.
w2222333333.
w2222333333.
w2222333333.
w2222222333333.
w2222222333333.
w2222222333333.
w22.";

/// A carriage return in its place, which is dropped at the end of a line alone.
pub const CARRIAGE_RETURN: &str = "
nnnnnnn1n
nnnnnnnnnn3n
nnnnnnnnnn3n
nnnnnnnnnn3n
nnnnnnnnnnnnn3n
nnnnnnnnnnnnn3n
nnnnnnnnnnnnn3n
nn2.";

/// A byte that no line may have.
pub const OTHER: &str = "
nnnnnnnnn
nnnnnnnnnnnn
nnnnnnnnnnnn
nnnnnnnnnnnn
nnnnnnnnnnnnnnn
nnnnnnnnnnnnnnn
nnnnnnnnnnnnnnn
nnnn";

/// A sign: no name begins with one, and alone none is a number.
pub const SIGN: &str = "
111111111
222222438383
222222438383
222222438383
222222222434383
222222222434383
222222222434388
2222";

/// A letter that is no name here: a point of that name is missed where its own is used first.
pub const LETTER: &str = "
111111111
222222u38383
222222u38383
222222v38383
222222222636383
222222222636383
222222222636388
2222";

/// A digit: a coordinate may be 0, a length may not.
pub const DIGIT: &str = "
111111111
22222243.3.3
22222243.3.3
22222243.3.3
222222222434393
222222222434393
222222222434398
2222";
