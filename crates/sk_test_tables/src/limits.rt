//! Drawings at the limits of the language, one element, constraint or byte beyond them, and long chains.
//!
//! A long text is told by its parts, between lines of two points: every second part is put once for each number from 3 on,
//! with the number in the place of each `#`, the two numbers before it in those of `<` and `=`, whether it is even in that of
//! `~`, and what it leaves by 7 in that of `^`.

/// Calls with a last number and `:` before their words, on a text by its parts, that come to a text by its parts; or to the
/// status before ` print ` and a text with the fingerprint behind it.
///
/// A strip of triangles, points in a zigzag, each at a distance of 1 from the next two, is one part, and is placed by points.
/// No two of 2,000 points have a constraint. Each two of three points have 1,333 distances. An element too many and a
/// constraint too many are refused.
///
/// As many line feeds as a sketch may have bytes are no sketch, and a session without replies. As many spaces are one
/// line, which is too long, and which a session answers. A byte more is too long a text, whatever its first line is.
pub const LONG: &str = "
$2000: check order=first
sketch 2
point P1 1 0
point P2 2 1
..
point P# # ~
..
distance P1 P2 1
..
distance P< P# 1
..
..
distance P= P# 1
..
end
> 0
verdict well
elements 2000
constraints 3997
parts 1
part 1 sound elements 2000 held 3997 due 3997 : P1 P2..
 P#..

$2000: solve order=first place=points
sketch 2
point P1 1 0
point P2 2 1
..
point P# # ~
..
distance P1 P2 1
..
distance P< P# 1
..
..
distance P= P# 1
..
end
> 0 print 1063990
$2000: check order=last
sketch 2
point P1 1 0
point P2 2 1
..
point P# # ~
..
distance P1 P2 1
..
distance P< P# 1
..
..
distance P= P# 1
..
end
> 0
verdict well
elements 2000
constraints 3997
parts 1
part 1 sound elements 2000 held 3997 due 3997 : P1 P2..
 P#..

$2000: solve order=last place=points
sketch 2
point P1 1 0
point P2 2 1
..
point P# # ~
..
distance P1 P2 1
..
distance P< P# 1
..
..
distance P= P# 1
..
end
> 0 print 5437873
$2000: check order=7
sketch 2
point P1 1 0
point P2 2 1
..
point P# # ~
..
distance P1 P2 1
..
distance P< P# 1
..
..
distance P= P# 1
..
end
> 0
verdict well
elements 2000
constraints 3997
parts 1
part 1 sound elements 2000 held 3997 due 3997 : P1 P2..
 P#..

$2000: solve order=7 place=points
sketch 2
point P1 1 0
point P2 2 1
..
point P# # ~
..
distance P1 P2 1
..
distance P< P# 1
..
..
distance P= P# 1
..
end
> 0 print 9434737
$2000: check
sketch 1
point P1 1 0
point P2 2 1
..
point P# # ~
..
end
> 0
verdict open
elements 2000
constraints 0
parts 2000
part 1 sound elements 1 held 0 due 0 : P1
part 2 sound elements 1 held 0 due 0 : P2
..
part # sound elements 1 held 0 due 0 : P#
..
$1335: check
sketch 1
point A 0 0
point B 1 0
point C 0 1
..
distance A B 1
..
..
distance B C 1
..
..
distance A C 1
..
end
> 0
verdict over
elements 3
constraints 3999
parts 1
part 1 over elements 3 held 3999 due 3 : A B C
$2001: check
sketch 1
point P1 1 0
point P2 2 1
..
point P# # ~
..
> 1
refused line 2002 E13 too-many-elements
$4003: check
sketch 1
point A 0 0
point B 1 0
..
distance A B 1
..
> 1
refused line 4004 E14 too-many-constraints
$4002: check
sketch 2
point A 0 0
point B 1 0
..
distance A B 1
..
block A 0 0 B 1 0
> 1
refused line 4004 E14 too-many-constraints
$1048578: check
..

..
> 1
refused line 0 E18 empty
$1048578: session
..

..
> 0
$1048578: check
..

..

> 1
refused line 0 E20 too-long
$1048578: offers
..

..

> 1
refused line 0 E20 too-long
$1048578: verify
..

..

> 1
refused line 0 E20 too-long
$1048578: flips
..

..

> 1
refused line 0 E20 too-long
$1048578: check
..
 ..
> 1
refused line 1 E15 line-too-long
$1048578: session
..
 ..
> 0
refused E15 line-too-long
$1048578: check
..
 ..
 > 1
refused line 0 E20 too-long
$1048578: session
..
 ..
 > 1
refused line 0 E20 too-long
";

/// No more than 64 lines of flips may stand, and one more is refused for that only where nothing else is wrong with it.
pub const MANY_FLIPS: &str = "
$66: flips
sketch 1
point A 7 7
end
..
flip
..
xxxxxxxxxxxxxxxxxxxxxxxxxxxxxxxxxxxxxxxxxxxxxxxxxxxxxxxxxxxxxxxxxxxxxxxxxxxxxxxxxxxxxxxxxxxxxxxxxxxxxxxxxxxxxxxxxxxxxxxxxxxxxxxxxxxxxxxxxxxxxxxxxxxxxxxxxxxxxxxxxxxxxxxxxxxxxxxxxxxxxxxxxxxxxxxxxxxxxxxxx
> 1
refused line 68 E15 line-too-long
$66: flips
sketch 1
point A 7 7
end
..
flip
..
flip\x7f
> 1
refused line 68 E19 not-ascii
$66: flips
sketch 1
point A 7 7
end
..
flip
..
flop
> 1
refused line 68 E2 word
$66: flips
sketch 1
point A 7 7
end
..
flip
..
flip s1 s2 s3 s4 s5 s6 s7 s8 s9 s10 s11 s12 s13 s14 s15 s16 s17
> 1
refused line 68 E3 shape
$66: flips
sketch 1
point A 7 7
end
..
flip
..
flip c1
> 1
refused line 68 E4 name
$66: flips
sketch 1
point A 7 7
end
..
flip
..
flip s1 s1
> 1
refused line 68 E10 same
$66: flips
sketch 1
point A 7 7
end
..
flip
..
flip s1
> 1
refused line 68 E21 too-many-flips
$66: flips
sketch 1
point A 7 7
end
..
flip
..
flip
> 1
refused line 68 E21 too-many-flips
$66: flips
sketch 1
point A 7 7
end
..
flip
..
> 1
refused line 68 E16 no-end
$63: flips
sketch 1
point A 7 7
end
flip
flip
..
flip
..
flip s1
end
> 0
flip 1 ok
point A 0 0
length tolerance 0 nm at none
angle tolerance 0 ppb at none
flip 2 ok
point A 0 0
length tolerance 0 nm at none
angle tolerance 0 ppb at none
..
flip # ok
point A 0 0
length tolerance 0 nm at none
angle tolerance 0 ppb at none
..
flip 64 no-choice s1
";

/// Drawings that are long chains, each with the tolerance in nm and in parts of 10^9 that it is placed within, and with how
/// long it is: strips, with equal and with other sides, fans, with a hub far off too, a polyline of lengths and angles, a
/// truss on a line, and a row of blocks.
pub const CHAINS: &str = "
$1 10 100 1000
point P1 1 0
point P2 2 1
..
point P# # ~
..
distance P1 P2 1
..
distance P< P# 1
distance P= P# 1
$2 10 100 2000
point P1 1 0
point P2 2 1
..
point P# # ~
..
distance P1 P2 1
..
distance P< P# 1.^
distance P= P# 1.^
$2 10 100 1000
point H 0 0
point P2 1000 2
..
point P# 1000 #
..
distance H P2 1000
..
distance H P# 1000.^
distance P< P# 2.^
$3 10 198
point H 0 0
point P2 10000 2
..
point P# 10000 #
..
distance H P2 10000
..
distance H P# 10000
distance P< P# 0.1
$2 10 100 1000
point P1 1 0
point P2 2 0
line L2 1 0 2 0
..
point P# # 0
line L# < 0 # 0
..
on P1 L2
on P2 L2
distance P1 P2 10
..
on P< L#
on P# L#
distance P< P# 1^
angle L< L# 1/1^
$1 10 201
line L 0 0 1 0
point B1 1 0
point B2 2 0
..
point B# # 0
point T# # 1
..
on B1 L
on B2 L
distance B1 B2 1
..
on B# L
distance B< B# 1
distance B< T# 1.^
distance B# T# 1.^
$2 10 100 900
point Q1 1 0
point Q2 2 0
point R2 2 1
..
point Q# # 0
point R# # 1
..
block Q1 0 0 R2 0.5 0.6 Q2 1 0
..
block Q< 0 0 R# 0.5 0.6 Q# 1 0
distance R< R# 1
";
