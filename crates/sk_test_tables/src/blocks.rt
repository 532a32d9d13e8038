//! Rigid blocks: judged, planned and placed; and what holds of them, and of an edge, at places made by hand.

/// A corner of three points, which weighs 3, braced by two distances; a distance within it, which is one constraint too
/// many; two points alone, whose distance isn't whole and lies between the two roots; and two corners that share a
/// point, the second of which is carried. In the first a block and a distance are dropped in turn: what they held together
/// falls apart, and the block stays whole or goes whole. The distance within the corner may go, the corner may not.
pub const BLOCKS: &str = "
$ check
sketch 2
point A 0 0
point B 4 0
point C 4 3
point D 0 3
block A 0 0 B 4 0 C 4 3
distance A D 3
distance C D 4
end
> 0
verdict well
elements 4
constraints 3
parts 1
part 1 sound elements 4 held 5 due 5 : A B C D
$ plan
sketch 2
point A 0 0
point B 4 0
point C 4 3
point D 0 3
block A 0 0 B 4 0 C 4 3
distance A D 3
distance C D 4
end
> 0
verdict well
elements 4
constraints 3
steps 1
leaf c1 : block A 0 0 B 4 0 C 4 3
leaf c2 : distance A D 3
leaf c3 : distance C D 4
step s1 joins c3 c2 c1 at D A C keeps c1 turn +
$ solve
sketch 2
point A 0 0
point B 4 0
point C 4 3
point D 0 3
block A 0 0 B 4 0 C 4 3
distance A D 3
distance C D 4
end
> 0
verdict well
steps 1
bits 38
point A 0 0
point B 4000000 0
point C 4000000 3000000
point D 0 3000000
length tolerance 0 nm at c1
angle tolerance 0 ppb at none
$ check
sketch 2
point A 0 0
point B 4 0
point C 4 3
block A 0 0 B 4 0 C 4 3
distance A B 4
end
> 0
verdict over
elements 3
constraints 2
parts 1
part 1 over elements 3 held 4 due 3 : A B C
$ check
sketch 2
point A 0 0
point B 1 1
block A 0 0 B 1 1
end
> 0
verdict well
elements 2
constraints 1
parts 1
part 1 sound elements 2 held 1 due 1 : A B
$ plan
sketch 2
point A 0 0
point B 1 1
block A 0 0 B 1 1
end
> 0
verdict well
elements 2
constraints 1
steps 0
leaf c1 : block A 0 0 B 1 1
$ solve
sketch 2
point A 0 0
point B 1 1
block A 0 0 B 1 1
end
> 0
verdict well
steps 0
bits 38
point A 0 0
point B 1000000 1000000
length tolerance 0 nm at c1
angle tolerance 0 ppb at none
$ plan
sketch 2
point A 0 0
point B 4 0
point C 4 3
point D 0 3
point E 0 6
block A 0 0 B 4 0 C 4 3
block C 0 0 D 4 0 E 4 -3
distance A D 3
end
> 0
verdict well
elements 5
constraints 3
steps 1
leaf c1 : block A 0 0 B 4 0 C 4 3
leaf c2 : block C 0 0 D 4 0 E 4 -3
leaf c3 : distance A D 3
step s1 joins c3 c2 c1 at D C A keeps c1 turn +
$ solve
sketch 2
point A 0 0
point B 4 0
point C 4 3
point D 0 3
point E 0 6
block A 0 0 B 4 0 C 4 3
block C 0 0 D 4 0 E 4 -3
distance A D 3
end
> 0
verdict well
steps 1
bits 38
point A 0 0
point B 4000000 0
point C 4000000 3000000
point D 0 3000000
point E 0 6000000
length tolerance 0 nm at c1
angle tolerance 0 ppb at none
$ spare
sketch 2
point A 0 0
point B 4 0
point C 4 3
block A 0 0 B 4 0 C 4 3
distance A B 4
end
> 0
spare 1
c2 : distance A B 4
$ session
point A 0 0
point B 4 0
point C 4 3
point D 0 3
block A 0 0 B 4 0 C 4 3
distance A D 3
distance C D 4
check
drop 2
check
undo
drop 1
check
undo
solve
end
> 0
ok A
ok B
ok C
ok D
ok c1
ok c2
ok c3
verdict well
elements 4
constraints 3
parts 1
part 1 sound elements 4 held 5 due 5 : A B C D
ok
verdict open
elements 4
constraints 2
parts 2
part 1 sound elements 3 held 3 due 3 : A B C
part 2 sound elements 2 held 1 due 1 : C D
ok
ok
verdict open
elements 4
constraints 2
parts 3
part 1 sound elements 2 held 1 due 1 : A D
part 2 sound elements 1 held 0 due 0 : B
part 3 sound elements 2 held 1 due 1 : C D
ok
verdict well
steps 1
bits 38
point A 0 0
point B 4000000 0
point C 4000000 3000000
point D 0 3000000
length tolerance 0 nm at c1
angle tolerance 0 ppb at none
";

/// The first side of an even triangle is exact, and the second within 1. As the second of two corners carries E no sign
/// differs. Beside, C and E alone are 2 mm too far apart. Mirrored, a block holds still, but it turns the other way.
pub const HELD: &str = "
$ held 0 0
sketch 1
point A 0 0
point B 10 0
point C 5 8
distance A B 10
distance A C 10
distance B C 10
end
at
point 0 0
point 10000000 0
point 5000000 8660254
> holds
$ held 1 0
sketch 1
point A 0 0
point B 10 0
point C 5 8
distance A B 10
distance A C 10
distance B C 10
end
at
point 0 0
point 10000000 0
point 5000000 8660254
> $ held 1 1
sketch 1
point A 0 0
point B 10 0
point C 5 8
distance A B 10
distance A C 10
distance B C 10
end
at
point 0 0
point 10000000 0
point 5000000 8660254
> holds
$ held 2 1999999
sketch 2
point A 0 0
point B 4 0
point C 4 3
point D 0 3
point E 0 6
block A 0 0 B 4 0 C 4 3
block C 0 0 D 4 0 E 4 -3
distance A D 3
end
at
point 0 0
point 4000000 0
point 4000000 3000000
point 0 3000000
point -3000000 3000000
> $ held 2 2000000
sketch 2
point A 0 0
point B 4 0
point C 4 3
point D 0 3
point E 0 6
block A 0 0 B 4 0 C 4 3
block C 0 0 D 4 0 E 4 -3
distance A D 3
end
at
point 0 0
point 4000000 0
point 4000000 3000000
point 0 3000000
point -3000000 3000000
> holds
$ held 2 0
sketch 2
point A 0 0
point B 4 0
point C 4 3
point D 0 3
point E 0 6
block A 0 0 B 4 0 C 4 3
block C 0 0 D 4 0 E 4 -3
distance A D 3
end
at
point 0 0
point 4000000 0
point 4000000 3000000
point 0 3000000
point 0 0
> holds
$ judged 1000
sketch 2
point A 0 0
point B 4 0
point C 4 3
point D 0 3
point E 0 6
block A 0 0 B 4 0 C 4 3
block C 0 0 D 4 0 E 4 -3
distance A D 3
end
at
point 0 0
point 4000000 0
point 4000000 3000000
point 0 3000000
point 0 6000000
> verdict well
steps 1
bits 38
point A 0 0
point B 4000000 0
point C 4000000 3000000
point D 0 3000000
point E 0 6000000
length tolerance 0 nm at c1
angle tolerance 0 ppb at none
$ judged 1000
sketch 2
point A 0 0
point B 4 0
point C 4 3
point D 0 3
point E 0 6
block A 0 0 B 4 0 C 4 3
block C 0 0 D 4 0 E 4 -3
distance A D 3
end
at
point 0 0
point 4000000 0
point 4000000 3000000
point 0 3000000
point 0 0
> verdict well
steps 1
bits 38
point A 0 0
point B 4000000 0
point C 4000000 3000000
point D 0 3000000
point E 0 0
length tolerance 0 nm at c1
angle tolerance 0 ppb at none
fault c2 turned drawn - placed 1
";
