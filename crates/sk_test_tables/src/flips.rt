//! Other drawings by turned choices.

/// What the lists of `TURNED` are tried on.
pub const TRIANGLE: &str = "\
sketch 1
point A 0 0
point B 4 0
point C 4 3
distance A B 4
distance A C 5
distance B C 3
end
";

/// What the refused lines below stand behind.
pub const LONE_POINT: &str = "sketch 1\npoint A 7 7\nend\n";

/// A triangle turns over and back, and has no second step. Three points on one line have no height on
/// either side. The keys are those of `solve`. No line of flips need stand, and one may name no step. Of a
/// list the first name without a choice is told, as it is written; where two lines cross nothing is open.
/// A line runs back along two circles; of a rectangle a side lies on the other side of the other, and both
/// are turned in either order; beside a block a corner is mirrored. Where the verdict isn't well, the check
/// report stands in the place of all that.
pub const FLIPS: &str = "
$ flips
sketch 1
point A 0 0
point B 4 0
point C 4 3
distance A B 4
distance A C 5
distance B C 3
end
flip s1
flip
flip s2
end
> 0
flip 1 ok
point A 0 0
point B 4000000 0
point C 4000000 -3000000
length tolerance 0 nm at c1
angle tolerance 0 ppb at none
flip 2 ok
point A 0 0
point B 4000000 0
point C 4000000 3000000
length tolerance 0 nm at c1
angle tolerance 0 ppb at none
flip 3 no-choice s2
$ flips
sketch 1
point A 0 0
point B 7 0
point C 3 1
distance A B 7
distance A C 3
distance B C 4
end
flip s1
end
> 0
flip 1 fault
fault s1 build height C flat 0 0 bits 38
$ flips bits=27 order=last
sketch 1
point A 0 0
point B 7 0
point C 3 1
distance A B 7
distance A C 3
distance B C 4
end

  flip\ts1\r

end

> 0
flip 1 fault
fault s1 build height C flat 0 0 bits 27
$ flips
sketch 1
point A 0 0
point B 4 0
point C 4 3
distance A B 4
distance A C 5
distance B C 3
end
end
> 0
$ flips
sketch 1
point A 0 0
point B 4 0
point C 4 3
distance A B 4
distance A C 5
distance B C 3
end
flip s3 s1 s2
flip s1 s2 s3
flip s999999
end
> 0
flip 1 no-choice s3
flip 2 no-choice s2
flip 3 no-choice s999999
$ flips bits=16 within=1
sketch 1
point A 0 0
point B 1 0
distance A B 0.003
end
flip s1
flip
end
> 0
flip 1 no-choice s1
flip 2 fault
fault c1 tolerance 2 nm limit 1
$ flips
sketch 1
point A 7 7
end
flip
flip s16 s15 s14 s13 s12 s11 s10 s9 s8 s7 s6 s5 s4 s3 s2 s1
end
> 0
flip 1 ok
point A 0 0
length tolerance 0 nm at none
angle tolerance 0 ppb at none
flip 2 no-choice s16
$ flips
sketch 1
line X 0 0 100 0
line Y 0 0 0 80
circle H 30 8 5
angle X Y 1/0
tangent X H
distance H Y 30
end
flip s1
flip s2 s1
end
> 0
flip 1 no-choice s1
flip 2 no-choice s2
$ flips
sketch 1
circle H 0 0 5
circle K 5 0 2
line T 0 -6 10 1.5
distance H K 5
tangent T H
tangent T K
end
flip s1
end
> 0
flip 1 ok
circle H 0 0 5000000
circle K 5000000 0 2000000
line T -600000000 -800000000 -5000000
length tolerance 0 nm at c1
angle tolerance 0 ppb at line T
$ flips
sketch 1
point A 0 0
point B 40 0
point C 40 25
point D 0 25
line S 0 0 40 0
line E 40 0 40 25
line N 40 25 0 25
line W 0 25 0 0
on A S
on A W
on B S
on B E
on C E
on C N
on D N
on D W
angle S E 1/0
angle E N 1/0
angle N W 1/0
distance A B 40
distance B C 25
end
flip s4
flip s5 s4
flip s4 s1
end
> 0
flip 1 ok
point A 40000000 0
point B 0 0
point C 0 25000000
point D 40000000 25000000
line S 0 1000000000 0
line E -1000000000 0 0
line N 0 -1000000000 -25000000
line W 1000000000 0 40000000
length tolerance 0 nm at c1
angle tolerance 0 ppb at line S
flip 2 ok
point A 40000000 0
point B 0 0
point C 0 -25000000
point D 40000000 -25000000
line S 0 1000000000 0
line E -1000000000 0 0
line N 0 -1000000000 25000000
line W 1000000000 0 40000000
length tolerance 0 nm at c1
angle tolerance 0 ppb at line S
flip 3 no-choice s1
$ flips
sketch 2
point A 0 0
point B 4 0
point C 4 3
point D 0 3 # the corner
block A 0 0 B 4 0 C 4 3
distance A D 3
distance C D 4
end # of it
flip s1
end
> 0
flip 1 ok
point A 0 0
point B 4000000 0
point C 4000000 3000000
point D 2880000 -840000
length tolerance 0 nm at c1
angle tolerance 0 ppb at none
$ flips
sketch 1
point A 0 0
point B 1 0
end
flip s1
end
> 6
verdict open
elements 2
constraints 0
parts 2
part 1 sound elements 1 held 0 due 0 : A
part 2 sound elements 1 held 0 due 0 : B
$ flips
sketch 1
point A 0 0
point B 1 0
distance A B 1
distance A B 1
end
end
> 6
verdict over
elements 2
constraints 2
parts 1
part 1 over elements 2 held 2 due 1 : A B
";

/// What is refused: a line of the sketch before one behind it, a line behind it by its first code, a line behind their
/// end, and both before a verdict that isn't well.
pub const REFUSED: &str = "
$ flips
sketch 1
point A 0 0
distance A B 3
end
flop
end
> 1
refused line 3 E6 unknown
$ flips
sketch 1
point A 0 0
> 1
refused line 3 E16 no-end
$ flips
sketch 1
point A 0 0
point B 1 0
end
flip s1
> 1
refused line 6 E16 no-end
$ flips
sketch 1
point A 0 0
point B 1 0
end
> 1
refused line 5 E16 no-end
$ flips
sketch 1
point A 0 0
point B 1 0
end
flop s1
> 1
refused line 5 E2 word
$ flips
sketch 1
point A 0 0
end
flip
flips
end
> 1
refused line 5 E2 word
$ flips
sketch 1
point A 0 0
end
flip s1
end
flip s1
> 1
refused line 6 E17 after-end
$ flips
sketch 1
point A 0 0
end
end

end s1
> 1
refused line 6 E17 after-end
$ flips
sketch 1
point A 0 0
end
end
\x7f
> 1
refused line 5 E19 not-ascii
$ flips
sketch 1
point A 0 0
end
end
xxxxxxxxxxxxxxxxxxxxxxxxxxxxxxxxxxxxxxxxxxxxxxxxxxxxxxxxxxxxxxxxxxxxxxxxxxxxxxxxxxxxxxxxxxxxxxxxxxxxxxxxxxxxxxxxxxxxxxxxxxxxxxxxxxxxxxxxxxxxxxxxxxxxxxxxxxxxxxxxxxxxxxxxxxxxxxxxxxxxxxxxxxxxxxxxxxxxxxxxx
> 1
refused line 5 E15 line-too-long
$ flips
sketch 2
point A 0 0 # here
end # of it
flip # s1
end
> 1
refused line 4 E4 name
$ flips
> 1
refused line 0 E18 empty
";

/// Lines of flips with their codes, each alone or in front of a later one of the same line.
pub const REFUSED_LINES: &str = "
E15 line-too-long: xxxxxxxxxxxxxxxxxxxxxxxxxxxxxxxxxxxxxxxxxxxxxxxxxxxxxxxxxxxxxxxxxxxxxxxxxxxxxxxxxxxxxxxxxxxxxxxxxxxxxxxxxxxxxxxxxxxxxxxxxxxxxxxxxxxxxxxxxxxxxxxxxxxxxxxxxxxxxxxxxxxxxxxxxxxxxxxxxxxxxxxxxxxxxxxxxxxxxxxxx
E15 line-too-long: \x7fxxxxxxxxxxxxxxxxxxxxxxxxxxxxxxxxxxxxxxxxxxxxxxxxxxxxxxxxxxxxxxxxxxxxxxxxxxxxxxxxxxxxxxxxxxxxxxxxxxxxxxxxxxxxxxxxxxxxxxxxxxxxxxxxxxxxxxxxxxxxxxxxxxxxxxxxxxxxxxxxxxxxxxxxxxxxxxxxxxxxxxxxxxxxxxxxxxxxxxxx
E19 not-ascii: \x7f
E19 not-ascii: flop\r s0
E2 word: flop s0
E2 word: flips
E2 word: Flip s1
E2 word: step s1
E2 word: # flip s1
E2 word: flips s1 s2 s3 s4 s5 s6 s7 s8 s9 s10 s11 s12 s13 s14 s15 s16 s17
E3 shape: flip s1 s2 s3 s4 s5 s6 s7 s8 s9 s10 s11 s12 s13 s14 s15 s16 x
E3 shape: end s1
E3 shape: end end
E4 name: flip s1 s1 c1
E4 name: flip s0
E4 name: flip s01
E4 name: flip s1000000
E4 name: flip s
E4 name: flip S1
E4 name: flip 1
E4 name: flip s1,s2
E4 name: flip s1x
E10 same: flip s1 s1
E10 same: flip s2 s1 s2";

/// A triangle's plan with its step turned over wants the third corner on the other side. The sign that it chooses is the
/// one that is called drawn.
pub const TURNED: &str = "
$ flips
flip s2 s1

flip s1
flip s2
flip
end
> Step(2)
Step(1)
flip 9 no-choice s2
Step(1)
flip 9 ok
point A 0 0
point B 4000000 0
point C 4000000 -3000000
length tolerance 0 nm at c1
angle tolerance 0 ppb at none
Step(2)
flip 9 no-choice s2
flip 9 ok
point A 0 0
point B 4000000 0
point C 4000000 3000000
length tolerance 0 nm at c1
angle tolerance 0 ppb at none
$ flips
flip
flip c1
> refused line 5 E4 name
$ off
sketch 1
point A 0 0
point B 4 0
point C 4 3
distance A B 4
distance A C 5
distance B C 3
end
at
point 0 0
point 4000000 0
point 4000000 -3000000
> $ off
sketch 1
point A 0 0
point B 4 0
point C 4 3
distance A B 4
distance A C 5
distance B C 3
end
at
point 0 0
point 4000000 0
point 4000000 3000000
> fault s1 turned drawn - placed 1
$ turned
> flip 7 fault
fault s2 turned drawn - placed 0
";
