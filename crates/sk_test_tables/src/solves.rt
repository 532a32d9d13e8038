//! Drawings and where their elements lie, or the first fault.

/// Triangles, as drawn, mirrored, drawn flat and even; a lone point, two points apart, and a text with tabs and carriage returns.
pub const POINTS: &str = "
$ solve
sketch 1
point A 0 0
point B 4 0
point C 4 3
distance A B 4
distance A C 5
distance B C 3
end
> 0
verdict well
steps 1
bits 38
point A 0 0
point B 4000000 0
point C 4000000 3000000
length tolerance 0 nm at c1
angle tolerance 0 ppb at none
$ solve
sketch 1
point A 0 0
point B 4 0
point C 4 -3
distance A B 4
distance A C 5
distance B C 3
end
> 0
verdict well
steps 1
bits 38
point A 0 0
point B 4000000 0
point C 4000000 -3000000
length tolerance 0 nm at c1
angle tolerance 0 ppb at none
$ solve
sketch 1
point A 0 0
point B 4 0
point C 8 0
distance A B 4
distance A C 5
distance B C 3
end
> 0
verdict well
steps 1
bits 38
point A 0 0
point B 4000000 0
point C 4000000 3000000
length tolerance 0 nm at c1
angle tolerance 0 ppb at none
$ solve
sketch 1
point A 0 0
point B 10 0
point C 5 8
distance A B 10
distance A C 10
distance B C 10
end
> 0
verdict well
steps 1
bits 38
point A 0 0
point B 10000000 0
point C 5000000 8660254
length tolerance 1 nm at c2
angle tolerance 0 ppb at none
$ solve
sketch 1
point A 7 7
end
> 0
verdict well
steps 0
bits 38
point A 0 0
length tolerance 0 nm at none
angle tolerance 0 ppb at none
$ solve
sketch 1
point A 0 0
point B 1 0
end
> 6
verdict open
elements 2
constraints 0
parts 2
part 1 sound elements 1 held 0 due 0 : A
part 2 sound elements 1 held 0 due 0 : B
$ solve
sketch\t1\r
point\tA\t0\t0\r
point\tB\t4\t0\r
point\tC\t4\t3\r
distance\tA\tB\t4\r
distance\tA\tC\t5\r
distance\tB\tC\t3\r
end\r
> 0
verdict well
steps 1
bits 38
point A 0 0
point B 4000000 0
point C 4000000 3000000
length tolerance 0 nm at c1
angle tolerance 0 ppb at none
";

/// A rectangle, a plate with a wheel, a belt line, and a line alone, drawn at two places.
pub const LINES: &str = "
$ solve
sketch 1
point A 0 0
point B 40 0
point C 40 25
point D 0 25
line S 0 0 40 0
line E 40 0 40 25
line N 40 25 0 25
line W 0 25 0 0
on A S
on A W
on B S
on B E
on C E
on C N
on D N
on D W
angle S E 1/0
angle E N 1/0
angle N W 1/0
distance A B 40
distance B C 25
end
> 0
verdict well
steps 6
bits 38
point A -40000000 0
point B 0 0
point C 0 25000000
point D -40000000 25000000
line S 0 1000000000 0
line E -1000000000 0 0
line N 0 -1000000000 -25000000
line W 1000000000 0 -40000000
length tolerance 0 nm at c1
angle tolerance 0 ppb at line S
$ solve
sketch 1
line X 0 0 100 0
line Y 0 0 0 80
circle H 30 8 5
angle X Y 1/0
tangent X H
distance H Y 30
end
> 0
verdict well
steps 1
bits 38
line X 0 1000000000 0
line Y -1000000000 0 0
circle H 30000000 5000000 5000000
length tolerance 0 nm at c2
angle tolerance 0 ppb at line X
$ solve
sketch 1
circle H 0 0 5
circle K 5 0 2
line T 0 -6 10 1.5
distance H K 5
tangent T H
tangent T K
end
> 0
verdict well
steps 1
bits 38
circle H 0 0 5000000
circle K 5000000 0 2000000
line T -600000000 800000000 -5000000
length tolerance 0 nm at c1
angle tolerance 0 ppb at line T
$ solve
sketch 1
line L 3 1 7 4
end
> 0
verdict well
steps 0
bits 38
line L 0 1000000000 0
length tolerance 0 nm at none
angle tolerance 0 ppb at line L
$ solve
sketch 1
line L 7 7 9 8
end
> 0
verdict well
steps 0
bits 38
line L 0 1000000000 0
length tolerance 0 nm at none
angle tolerance 0 ppb at line L
";

/// The first fault, on each grid and beyond each limit.
pub const FAULTS: &str = "
$ solve
sketch 1
point A 0 0
point B 7 0
point C 3 1
distance A B 7
distance A C 3
distance B C 4
end
> 7
fault s1 build height C flat 0 0 bits 38
$ solve bits=27
sketch 1
point A 0 0
point B 7 0
point C 3 1
distance A B 7
distance A C 3
distance B C 4
end
> 7
fault s1 build height C flat 0 0 bits 27
$ solve bits=16
sketch 1
point A 0 0
point B 7 0
point C 3 1
distance A B 7
distance A C 3
distance B C 4
end
> 7
fault s1 build height C flat 0 0 bits 16
$ solve
sketch 1
point A 0 0
point B 7 0
point C 3 1
distance A B 5
distance A C 1
distance B C 1
end
> 7
fault s1 build height C gap -1443109011456 -1443109011456 bits 38
$ solve bits=27
sketch 1
point A 0 0
point B 7 0
point C 3 1
distance A B 5
distance A C 1
distance B C 1
end
> 7
fault s1 build height C gap -704643072 -704643072 bits 27
$ solve bits=16
sketch 1
point A 0 0
point B 7 0
point C 3 1
distance A B 5
distance A C 1
distance B C 1
end
> 7
fault s1 build height C gap -344064 -344064 bits 16
$ solve
sketch 1
point A 0 0
point B 7 0
point C 3 1
distance A B 0.001
distance A C 1000000
distance B C 1
end
> 7
fault s1 build height C range bits 38
$ solve bits=27
sketch 1
point A 0 0
point B 7 0
point C 3 1
distance A B 0.001
distance A C 1000000
distance B C 1
end
> 7
fault s1 build height C range bits 27
$ solve bits=16
sketch 1
point A 0 0
point B 7 0
point C 3 1
distance A B 0.001
distance A C 1000000
distance B C 1
end
> 7
fault s1 build base C flat 0 1 bits 16
$ solve within=1
sketch 1
point A 0 0
point B 1 0
distance A B 0.003
end
> 0
verdict well
steps 0
bits 38
point A 0 0
point B 3000 0
length tolerance 0 nm at c1
angle tolerance 0 ppb at none
$ solve bits=38 within=1
sketch 1
point A 0 0
point B 1 0
distance A B 0.003
end
> 0
verdict well
steps 0
bits 38
point A 0 0
point B 3000 0
length tolerance 0 nm at c1
angle tolerance 0 ppb at none
$ solve bits=16 within=1
sketch 1
point A 0 0
point B 1 0
distance A B 0.003
end
> 8
fault c1 tolerance 2 nm limit 1
";

/// What has no place: a point on a line beyond its distance, a line along two wheels of which one lies in the
/// other, a point between two parallel lines; a child that two parallel lines would carry, and one that is
/// carried by two points too near to one another for the grid.
pub const PLACELESS: &str = "
$ solve
sketch 1
line L 0 0 100 0
point C 0 10
point P 3 0
distance C L 10
distance C P 5
on P L
end
> 7
fault s1 build reach P gap -20615843020800 -20615843020800 bits 38
$ solve
sketch 1
circle H 0 0 5
circle K 2 0 2
line T -10 -6 10 -6
distance H K 2
tangent T H
tangent T K
end
> 7
fault s1 build rise T gap -343597383680 -343597383680 bits 38
$ solve
sketch 1
line X 0 0 10 0
line Y 0 0 0 10
line Z 0 8 10 8
point P 5 5
point Q 2 2
angle X Y 1/0
angle Y Z 1/0
distance P X 5
distance P Y 5
distance P Z 3
distance Q X 2
distance Q Z 6
end
> 7
fault s3 build x Q flat 0 0 bits 38
$ solve
sketch 1
line V 0 0 10 0
line T 0 0 0 10
point A 2 3
point B 4 5
line Y 20 0 20 10
line W 0 8 10 8
point P 15 5
angle V T 1/0
distance A V 3
distance A T 2
distance B V 5
distance B T 4
angle V Y 1/0
distance P V 5
distance P Y 5
angle Y W 1/0
distance P W 3
distance A W 5
end
> 7
fault s5 second fx V flat 0 0 bits 38
$ solve bits=16
sketch 1
line L 0 0 10 0
point U 0 0
point T 12 5
point W 1 0
line M 0 1 10 1
on U L
distance T U 13
distance T L 5
distance U W 0.005
distance U M 1
distance W M 1
on W L
end
> 7
fault s3 first b M range bits 16
";

/// Lines at angles that the coarsest grid misses: the one has a normal of 707107544 by 707107544, the other one of
/// 384620667 by 923072815.
pub const TILTED: &str = "
$ solve bits=16
sketch 1
line X 0 0 10 0
line Y 0 0 10 10
angle X Y 1/1
end
> 8
fault line Y tolerance 2158 ppb limit 1000
$ solve bits=16 within=3520
sketch 1
line X 0 0 10 0
line Y 0 0 12 5
angle X Y 5/12
end
> 8
fault line Y tolerance 3521 ppb limit 3520
$ solve bits=16 within=3521
sketch 1
line X 0 0 10 0
line Y 0 0 12 5
angle X Y 5/12
end
> 8
fault c1 tolerance 4937 ppb limit 3521
$ solve bits=16 within=4937
sketch 1
line X 0 0 10 0
line Y 0 0 12 5
angle X Y 5/12
end
> 0
verdict well
steps 0
bits 16
line X 0 1000000000 0
line Y -384620667 923072815 0
length tolerance 0 nm at none
angle tolerance 4937 ppb at c1
";

/// A strip whose first triangle is possible and whose second is not, on each grid; and three triangles that meet at
/// three corners, of which the second and the third are impossible.
pub const LATER_FAULTS: &str = "
$ solve
sketch 1
point A 0 0
point B 4 0
point C 4 3
point D 8 3
distance A B 4
distance A C 5
distance B C 3
distance B D 1
distance C D 1
end
> 7
fault s2 build height D gap -343597383680 -343597383680 bits 38
$ solve bits=27
sketch 1
point A 0 0
point B 4 0
point C 4 3
point D 8 3
distance A B 4
distance A C 5
distance B C 3
distance B D 1
distance C D 1
end
> 7
fault s2 build height D gap -167772160 -167772160 bits 27
$ solve bits=16
sketch 1
point A 0 0
point B 4 0
point C 4 3
point D 8 3
distance A B 4
distance A C 5
distance B C 3
distance B D 1
distance C D 1
end
> 7
fault s2 build height D gap -81920 -81920 bits 16
$ solve
sketch 1
point A 0 0
point B 2 0
point C 4 0
point D 3 2
point E 2 4
point F 1 2
distance A B 3
distance A C 4
distance B C 5
distance C D 5
distance C E 1
distance D E 1
distance A E 5
distance A F 1
distance E F 1
end
> 7
fault s2 build height E gap -1443109011456 -1443109011456 bits 38
";
