//! Constraints that may go.

/// In a braced square any constraint may go, in a triangle none. A pair that is told twice may lose either of the two,
/// and nothing else may go, though all is one cluster; of three any may go. Of a braced square with triangles at its side
/// and a pair apart that is told twice, the square's and the pair's may go.
/// Where a sound triangle hangs at a pair that is told twice, the pair's two may go and none of the triangle's.
/// Of two blocks over the same points either may go. Of two points on a line at a distance that is told twice, either
/// distance may go and neither point's place on the line.
/// Where nothing holds together nothing may go, nor of three lines, which don't; and a text that isn't a sketch is refused.
pub const SPARES: &str = "
$ spare
sketch 1
point A 0 0
point B 4 0
point C 4 3
point D 0 3
distance A B 4
distance A C 5
distance A D 3
distance B C 3
distance B D 5
distance C D 4
end
> 0
spare 6
c1 : distance A B 4
c2 : distance A C 5
c3 : distance A D 3
c4 : distance B C 3
c5 : distance B D 5
c6 : distance C D 4
$ spare
sketch 1
point A 0 0
point B 4 0
point C 4 3
point D 0 3
distance A B 4
distance A C 5
distance B C 3
distance B D 5
distance C D 4
distance A B 4
end
> 0
spare 2
c1 : distance A B 4
c6 : distance A B 4
$ spare
sketch 1
point A 0 0
point B 4 0
point C 4 3
distance A B 4
distance A C 5
distance B C 3
end
> 0
spare 0
$ spare
sketch 1
point A 0 0
point B 1 0
distance A B 1
distance B A 1
distance A B 2
end
> 0
spare 3
c1 : distance A B 1
c2 : distance B A 1
c3 : distance A B 2
$ spare
sketch 1
point A 0 0
point B 4 0
point C 4 3
point D 0 3
point E 2 6
point F -2 6
point G 9 0
point H 9 1
distance G H 1
distance D E 3
distance C E 3
distance D F 3
distance E F 4
distance A B 4
distance A C 5
distance A D 3
distance B C 3
distance B D 5
distance C D 4
distance G H 1
end
> 0
spare 8
c1 : distance G H 1
c6 : distance A B 4
c7 : distance A C 5
c8 : distance A D 3
c9 : distance B C 3
c10 : distance B D 5
c11 : distance C D 4
c12 : distance G H 1
$ spare
sketch 1
point A 0 0
point B 4 0
point C 4 3
point D -2 0
distance A B 4
distance A D 2
distance A C 5
distance B C 3
distance D A 2
end
> 0
spare 2
c2 : distance A D 2
c5 : distance D A 2
$ spare
sketch 2
point A 0 0
point B 4 0
point C 4 3
block A 0 0 B 4 0 C 4 3
block A 0 0 B 4 0 C 4 3 # again
end
> 0
spare 2
c1 : block A 0 0 B 4 0 C 4 3
c2 : block A 0 0 B 4 0 C 4 3
$ spare
sketch 1
line L 0 0 1 0
point A 0 0
point B 3 0
on A L
on B L
distance A B 3
distance B A 3
end
> 0
spare 2
c3 : distance A B 3
c4 : distance B A 3
$ spare
sketch 1
line X 0 0 1 0
line Y 0 0 1 1
line Z 0 0 0 1
angle X Y 1/1
angle Y Z 1/1
angle X Z 1/0
end
> 0
spare 0
$ spare
sketch 1
point A 0 0
point B 1 0
end
> 0
spare 0
$ spare
sketch 1
point A 0 0
distance A B 3
end
> 1
refused line 3 E6 unknown
$ spare
> 1
refused line 0 E18 empty
";
