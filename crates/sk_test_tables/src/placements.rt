//! A plate's places and its DXF text, and the fault of an impossible triangle.

/// A plate on the finest grid, and an impossible triangle on the coarsest.
pub const PLACEMENTS: &str = "
$ places 38
sketch 1
line X 0 0 100 0
line Y 0 0 0 80
circle H 30 8 5
angle X Y 1/0
tangent X H
distance H Y 30
end
> Spot { elem: Elem(1), at: Line { a: 0, b: 1000000000, c: 0 } }
Spot { elem: Elem(2), at: Line { a: -1000000000, b: 0, c: 0 } }
Spot { elem: Elem(3), at: Point { x: 30000000, y: 5000000 } }
0
SECTION
2
ENTITIES
0
LINE
8
0
10
20.000000
20
0.000000
11
40.000000
21
0.000000
0
LINE
8
0
10
0.000000
20
-5.000000
11
0.000000
21
15.000000
0
CIRCLE
8
0
10
30.000000
20
5.000000
40
5.000000
0
ENDSEC
0
EOF
$ places 16
sketch 1
point A 0 0
point B 7 0
point C 3 1
distance A B 5
distance A C 1
distance B C 1
end
> fault s1 build height C gap -344064 -344064 bits 16
";
