//! Drawings whose places are points of the grid, beside the same with boxes.

/// A line is at 45° and steeper to others; a triangle that is flat, or has a gap, has it within ends that are as wide
/// as one join makes them; a fan of thin triangles is placed, whose boxes grow too wide, and with a choice turned over;
/// on a coarse grid a midpoint that is rounded down costs half a unit.
pub const SETTLED: &str = "
$ solve place=points
sketch 1
point A 0 0
point B 1 0
line X 0 0 1 0
line Y 0 0 1 2
line Z 1 0 0 3
on A X
on A Y
on B X
on B Z
angle X Y 2/1
angle Y Z 1/3
distance A B 1
end
> 0
verdict well
steps 3
bits 38
point A 0 0
point B 1000000 0
line X 0 1000000000 0
line Y -894427191 447213596 0
line Z -989949494 141421356 -989949
length tolerance 1 nm at c4
angle tolerance 1 ppb at line Y
$ solve
sketch 1
point A 0 0
point B 1 0
line X 0 0 1 0
line Y 0 0 1 2
line Z 1 0 0 3
on A X
on A Y
on B X
on B Z
angle X Y 2/1
angle Y Z 1/3
distance A B 1
end
> 0
verdict well
steps 3
bits 38
point A 0 0
point B 1000000 0
line X 0 1000000000 0
line Y -894427191 447213596 0
line Z -989949494 141421356 -989949
length tolerance 1 nm at c4
angle tolerance 1 ppb at line Y
$ solve place=points
sketch 1
point A 0 0
point B 0.309 0
point C 0.309 0.412
point D 0 0.412
point E 0.433 0.587
distance A B 0.309
distance B D 0.515
distance A D 0.412
distance B C 0.412
distance C D 0.309
distance A E 0.721
distance C E 0.206
end
> 7
fault s3 build height E flat -11 8 bits 38
$ solve
sketch 1
point A 0 0
point B 0.309 0
point C 0.309 0.412
point D 0 0.412
point E 0.433 0.587
distance A B 0.309
distance B D 0.515
distance A D 0.412
distance B C 0.412
distance C D 0.309
distance A E 0.721
distance C E 0.206
end
> 7
fault s3 build height E flat -264 264 bits 38
$ solve place=points
sketch 1
point A 0 0
point B 0.309 0
point C 0.309 0.412
point D 0 0.412
point E 0.433 0.587
distance A B 0.309
distance B D 0.515
distance A D 0.412
distance B C 0.412
distance C D 0.309
distance A E 0.721
distance C E 0.1
end
> 7
fault s3 build height E gap -12754912024 -12754912005 bits 38
$ solve place=boxes
sketch 1
point A 0 0
point B 0.309 0
point C 0.309 0.412
point D 0 0.412
point E 0.433 0.587
distance A B 0.309
distance B D 0.515
distance A D 0.412
distance B C 0.412
distance C D 0.309
distance A E 0.721
distance C E 0.1
end
> 7
fault s3 build height E gap -12754912295 -12754911732 bits 38
$ solve order=last
sketch 1
point H 0 0
point P1 10000 0.1
point P2 10000 0.2
point P3 10000 0.3
point P4 10000 0.4
point P5 10000 0.5
point P6 10000 0.6
distance H P1 10000
distance H P2 10000
distance H P3 10000
distance H P4 10000
distance H P5 10000
distance H P6 10000
distance P1 P2 0.1
distance P2 P3 0.1
distance P3 P4 0.1
distance P4 P5 0.1
distance P5 P6 0.1
end
> 7
fault s5 build height P1 flat -261640001 5759200000 bits 38
$ solve order=last place=points
sketch 1
point H 0 0
point P1 10000 0.1
point P2 10000 0.2
point P3 10000 0.3
point P4 10000 0.4
point P5 10000 0.5
point P6 10000 0.6
distance H P1 10000
distance H P2 10000
distance H P3 10000
distance H P4 10000
distance H P5 10000
distance H P6 10000
distance P1 P2 0.1
distance P2 P3 0.1
distance P3 P4 0.1
distance P4 P5 0.1
distance P5 P6 0.1
end
> 0
verdict well
steps 5
bits 38
point H 0 0
point P1 9999999992 -400000
point P2 9999999996 -300000
point P3 9999999998 -200000
point P4 9999999999 -100000
point P5 10000000000 0
point P6 9999999999 100000
length tolerance 1 nm at c1
angle tolerance 0 ppb at none
$ flips order=last place=points
sketch 1
point H 0 0
point P1 10000 0.1
point P2 10000 0.2
point P3 10000 0.3
point P4 10000 0.4
point P5 10000 0.5
point P6 10000 0.6
distance H P1 10000
distance H P2 10000
distance H P3 10000
distance H P4 10000
distance H P5 10000
distance H P6 10000
distance P1 P2 0.1
distance P2 P3 0.1
distance P3 P4 0.1
distance P4 P5 0.1
distance P5 P6 0.1
end
flip s1
end
> 0
flip 1 ok
point H 0 0
point P1 9999999992 -400000
point P2 9999999996 -300000
point P3 9999999998 -200000
point P4 9999999999 -100000
point P5 10000000000 0
point P6 9999999999 -100000
length tolerance 1 nm at c1
angle tolerance 0 ppb at none
$ solve bits=16 place=points
sketch 1
point A 0 0
point B 10 0
point C 5 8
distance A B 10
distance B C 10
distance C A 10
end
> 0
verdict well
steps 1
bits 16
point A 0 0
point B 10000000 0
point C 5000000 8660248
length tolerance 6 nm at c2
angle tolerance 0 ppb at none
$ solve place=boxes bits=16
sketch 1
point A 0 0
point B 10 0
point C 5 8
distance A B 10
distance B C 10
distance C A 10
end
> 0
verdict well
steps 1
bits 16
point A 0 0
point B 10000000 0
point C 5000000 8660255
length tolerance 1 nm at c2
angle tolerance 0 ppb at none
$ session bits=16 place=points
point A 0 0
point B 10 0
point C 5 8
distance A B 10
distance B C 10
distance C A 10
solve
end
> 0
ok A
ok B
ok C
ok c1
ok c2
ok c3
verdict well
steps 1
bits 16
point A 0 0
point B 10000000 0
point C 5000000 8660248
length tolerance 6 nm at c2
angle tolerance 0 ppb at none
";
