//! Drawings and their DXF texts.

/// A plate with a wheel; a triangle that has a gap, and a sketch that is open, aren't drawn.
pub const DRAWN: &str = "
$ dxf
sketch 1
line X 0 0 100 0
line Y 0 0 0 80
circle H 30 8 5
angle X Y 1/0
tangent X H
distance H Y 30
end
> 0
0
SECTION
2
ENTITIES
0
LINE
8
0
10
20.000000
20
0.000000
11
40.000000
21
0.000000
0
LINE
8
0
10
0.000000
20
-5.000000
11
0.000000
21
15.000000
0
CIRCLE
8
0
10
30.000000
20
5.000000
40
5.000000
0
ENDSEC
0
EOF
$ dxf
sketch 1
point A 0 0
point B 7 0
point C 3 1
distance A B 5
distance A C 1
distance B C 1
end
> 7
fault s1 build height C gap -1443109011456 -1443109011456 bits 38
$ dxf
sketch 1
point A 0 0
point B 1 0
end
> 6
verdict open
elements 2
constraints 0
parts 2
part 1 sound elements 1 held 0 due 0 : A
part 2 sound elements 1 held 0 due 0 : B
";

/// Drawings whose elements lie at places that were made by hand: a plate with a hole, of which each axis has one neighbour and
/// the axes are none of each other; a slanted line between its two neighbours, the farther named first; half a nanometre along
/// is a whole one, on both sides.
pub const BY_HAND: &str = "
$ drawing
sketch 1
line X 0 0 1 0
line Y 0 0 1 0
circle H 0 0 5
angle X Y 1/0
tangent X H
distance H Y 1
end
at
line 0 1000000000 0
line -1000000000 0 0
point 30000000 5000000
> 0
SECTION
2
ENTITIES
0
LINE
8
0
10
20.000000
20
0.000000
11
40.000000
21
0.000000
0
LINE
8
0
10
0.000000
20
-5.000000
11
0.000000
21
15.000000
0
CIRCLE
8
0
10
30.000000
20
5.000000
40
5.000000
0
ENDSEC
0
EOF
$ drawing
sketch 1
point H 0 0
point K 0 0
line T 0 0 1 0
distance T K 1
distance H T 1
distance H K 1
end
at
point 0 0
point 5000000 0
line -600000000 800000000 -5000000
> 0
SECTION
2
ENTITIES
0
POINT
8
0
10
0.000000
20
0.000000
0
POINT
8
0
10
5.000000
20
0.000000
0
LINE
8
0
10
3.000000
20
-4.000000
11
6.200000
21
-1.600000
0
ENDSEC
0
EOF
$ drawing
sketch 1
point A 0 0
point B 0 0
line L 0 0 1 0
distance A L 1
distance B L 1
end
at
point 1 0
point -1 0
line 0 500000000 0
> 0
SECTION
2
ENTITIES
0
POINT
8
0
10
0.000001
20
0.000000
0
POINT
8
0
10
-0.000001
20
0.000000
0
LINE
8
0
10
-0.000001
20
0.000000
11
0.000001
21
0.000000
0
ENDSEC
0
EOF
";
