//! The constraints that a drawing lacks.

/// Two points, also at no whole number of micrometres; one; three; a line and points; two lines with a blunt angle, and one
/// whose tangent is rounded; a line that leans; an angle that others tell; blocks, loose and hinged; and a sketch that is
/// well already.
pub const COMPLETED: &str = "
$ complete
sketch 1
point A 0 0
point B 3 4
end
> 0
sketch 1
point A 0 0
point B 3 4
distance A B 5
end
$ complete
sketch 1
point A 0 0
circle C 1 1 2
end
> 0
sketch 1
point A 0 0
circle C 1 1 2
distance A C 1.414
end
$ complete
sketch 1
point A 7 7
end
> 0
sketch 1
point A 7 7
end
$ complete
sketch 1
point A 0 0
point B 10 0
point C 9 7
end
> 0
sketch 1
point A 0 0
point B 10 0
point C 9 7
distance A B 10
distance B C 7.071
distance A C 11.402
end
$ complete
sketch 1
line L 0 0 8 0
point A 2 0
point B 5 4
end
> 0
sketch 1
line L 0 0 8 0
point A 2 0
point B 5 4
on A L
distance B L 4
distance A B 5
end
$ complete
sketch 1
line L 0 0 10 0
line M 0 0 -3 1
end
> 0
sketch 1
line L 0 0 10 0
line M 0 0 -3 1
angle L M -1/3
end
$ complete
sketch 1
line L 0 0 1 0
line M 0 0 0.01 100.001
end
> 0
sketch 1
line L 0 0 1 0
line M 0 0 0.01 100.001
angle L M 10000/1
end
$ complete
sketch 1
point A 1 1
line L 0 0 3 1
line M 0 5 2 6
end
> 0
sketch 1
point A 1 1
line L 0 0 3 1
line M 0 5 2 6
distance A L 0.632
angle L M 1/7
distance A M 4.025
end
$ complete
sketch 1
point A 0 0
line L 0 0 4 0
line M 0 0 0 4
line N 0 3 3 0
on A L
angle L N -1/1
angle N M -1/1
on A M
end
> 0
sketch 1
point A 0 0
line L 0 0 4 0
line M 0 0 0 4
line N 0 3 3 0
on A L
angle L N -1/1
angle N M -1/1
on A M
distance A N 2.121
end
$ complete
sketch 2
circle H 1 1 2
point A 0 0
point B 3 4
block A 0 0 B 5 0
end
> 0
sketch 2
circle H 1 1 2
point A 0 0
point B 3 4
block A 0 0 B 5 0
distance H A 1.414
distance H B 3.606
end
$ complete
sketch 2
point A 0 0
point B 4 0
point C 4 3
point D 0 3
block A 0 0 B 4 0 C 4 3
distance A D 3
end
> 0
sketch 2
point A 0 0
point B 4 0
point C 4 3
point D 0 3
block A 0 0 B 4 0 C 4 3
distance A D 3
distance C D 4
end
$ complete
sketch 2
# a triangle
 point A 0 0.0
point B 4.00 0
point C 4 3
distance A B 04
distance C A 5.000
distance B C 3
end
> 0
sketch 1
point A 0 0
point B 4 0
point C 4 3
distance A B 4
distance C A 5
distance B C 3
end
";

/// Which constraint comes next: of hinged elements that which holds firmly, the nearest, of two alike the lesser, an angle of
/// lines, one on a line; what is apart before what holds thinly; what a chain of parts holds before what is flat, and that at
/// last; and the base of most elements, else the second.
pub const NEXT: &str = "
$ complete
sketch 1
point A 0 0
point B 9 12
point C 4 0
point D -4 3
distance A B 15
distance A C 4
distance B C 13
distance A D 5
end
> 0
sketch 1
point A 0 0
point B 9 12
point C 4 0
point D -4 3
distance A B 15
distance A C 4
distance B C 13
distance A D 5
distance C D 8.544
end
$ complete
sketch 1
point A 0 0
point B 1 0
point C 9 9
point D 10 0
distance A B 1
distance A C 12.728
distance B C 12.042
distance A D 10
end
> 0
sketch 1
point A 0 0
point B 1 0
point C 9 9
point D 10 0
distance A B 1
distance A C 12.728
distance B C 12.042
distance A D 10
distance C D 9.055
end
$ complete
sketch 1
point A 0 0
point D 5 0
point C 3 4
point B 3 -4
distance A B 5
distance A C 5
distance B C 8
distance A D 5
end
> 0
sketch 1
point A 0 0
point D 5 0
point C 3 4
point B 3 -4
distance A B 5
distance A C 5
distance B C 8
distance A D 5
distance D C 4.472
end
$ complete
sketch 1
point A 0 0
point B 4 0
point C 4 3
point D 0 6
point E -8 6
distance A B 4
distance B C 3
distance A C 5
distance A D 6
distance D E 8
distance A E 10
end
> 0
sketch 1
point A 0 0
point B 4 0
point C 4 3
point D 0 6
point E -8 6
distance A B 4
distance B C 3
distance A C 5
distance A D 6
distance D E 8
distance A E 10
distance C D 5
end
$ complete
sketch 1
point A 0 0
line L 0 0 5 0
line M 0 0 0 5
on A L
on A M
point B 3 0
on B L
distance A B 3
end
> 0
sketch 1
point A 0 0
line L 0 0 5 0
line M 0 0 0 5
point B 3 0
on A L
on A M
on B L
distance A B 3
angle L M 1/0
end
$ complete
sketch 1
line L 0 0 10 0
point A 2 3
point B 7 5
point C 7 1
distance A L 3
distance B L 5
distance C L 1
end
> 0
sketch 1
line L 0 0 10 0
point A 2 3
point B 7 5
point C 7 1
distance A L 3
distance B L 5
distance C L 1
distance A B 5.385
distance A C 5.385
end
$ complete
sketch 1
point A 0 0
point B 1 0
point C 1000 9
point D 5 5
distance A B 1
distance B C 999.041
end
> 0
sketch 1
point A 0 0
point B 1 0
point C 1000 9
point D 5 5
distance A B 1
distance B C 999.041
distance B D 6.403
distance A C 1000.04
distance A D 7.071
end
$ complete
sketch 1
point A 0 0
point B 4 0
point C 10 0
point D 10 5
distance A B 4
distance B C 6
distance C D 5
end
> 0
sketch 1
point A 0 0
point B 4 0
point C 10 0
point D 10 5
distance A B 4
distance B C 6
distance C D 5
distance B D 7.81
distance A D 11.18
end
$ complete
sketch 1
line F 0 0 10 0
point H 4 0
line U 0 3 10 3
point T 6 3
on H F
on T U
end
> 0
sketch 1
line F 0 0 10 0
point H 4 0
line U 0 3 10 3
point T 6 3
on H F
on T U
distance H U 3
distance T F 3
distance H T 3.606
end
$ complete
sketch 1
point A 0 0
point B 4 0
point C 10 0
distance A B 4
distance B C 6
end
> 0
sketch 1
point A 0 0
point B 4 0
point C 10 0
distance A B 4
distance B C 6
distance A C 10
end
$ complete
sketch 1
point A 0 0
point B 20 0
point C 24 0
point D 24 3
distance A B 20
distance B C 4
distance B D 5
distance C D 3
end
> 0
sketch 1
point A 0 0
point B 20 0
point C 24 0
point D 24 3
distance A B 20
distance B C 4
distance B D 5
distance C D 3
distance A D 24.187
end
$ complete
sketch 1
point Z -281000 777000
point U 309000 834000
line N -429000 763000 309000 834000
point F 999000 -553000
point D -859000 -222000
distance D N 939000
distance F Z 1000000
distance F D 1000000
distance U D 1000000
end
> 0
sketch 1
point Z -281000 777000
point U 309000 834000
line N -429000 763000 309000 834000
point F 999000 -553000
point D -859000 -222000
distance D N 939000
distance F Z 1000000
distance F D 1000000
distance U D 1000000
on U N
distance Z N 237.386
distance Z U 592746.995
end
";

/// Why there is no completion: a part is over, or there are lines alone, of which two are parallel; angles close a circle;
/// the constraints weigh enough and leave parts, as the sides of a prism, and with one more; two elements are drawn at one
/// place, too far apart, or too nearly parallel; and a text that is no sketch.
pub const WITHOUT: &str = "
$ complete
sketch 1
point A 0 0
point B 1 0
point C 5 5
distance A B 2
distance B A 2
end
> 6
no completion over
verdict over
elements 3
constraints 2
parts 2
part 1 over elements 2 held 2 due 1 : A B
part 2 sound elements 1 held 0 due 0 : C
$ complete
sketch 1
line L 0 0 1 0
line M 0 0 0 1
line N 0 1 1 0
angle L M 1/0
end
> 6
no completion lines
verdict open
elements 3
constraints 1
parts 2
part 1 sound elements 2 held 1 due 1 : L M
part 2 sound elements 1 held 0 due 0 : N
$ complete
sketch 1
line L 0 0 1 0
line M 0 1 1 1
end
> 6
no completion stuck
verdict open
elements 2
constraints 0
parts 2
part 1 sound elements 1 held 0 due 0 : L
part 2 sound elements 1 held 0 due 0 : M
$ complete
sketch 1
line L 0 0 1 0
line M 0 0 0 1
line N 0 1 1 0
angle L M 1/0
angle M N 1/1
angle L N -1/1
point A 0 0
on A L
end
> 6
no completion angles
verdict open
elements 4
constraints 4
parts 4
part 1 sound elements 2 held 1 due 1 : L M
part 2 sound elements 2 held 1 due 1 : L N
part 3 sound elements 2 held 1 due 1 : L A
part 4 sound elements 2 held 1 due 1 : M N
$ complete
sketch 1
point A 0 0
point B 3 0
point C 0 4
point D 9 0
point E 12 0
point F 9 4
distance A B 3
distance A C 4
distance B C 5
distance D E 3
distance D F 4
distance E F 5
distance A D 9
distance B E 9
distance C F 9
end
> 6
no completion enough
verdict open
elements 6
constraints 9
parts 5
part 1 sound elements 3 held 3 due 3 : A B C
part 2 sound elements 2 held 1 due 1 : A D
part 3 sound elements 2 held 1 due 1 : B E
part 4 sound elements 2 held 1 due 1 : C F
part 5 sound elements 3 held 3 due 3 : D E F
$ complete
sketch 1
point A 0 0
point B 3 0
point C 0 4
point D 9 0
point E 12 0
point F 9 4
point G 5 9
distance A B 3
distance A C 4
distance B C 5
distance D E 3
distance D F 4
distance E F 5
distance A D 9
distance B E 9
distance C F 9
end
> 6
no completion stuck
verdict open
elements 7
constraints 9
parts 6
part 1 sound elements 3 held 3 due 3 : A B C
part 2 sound elements 2 held 1 due 1 : A D
part 3 sound elements 2 held 1 due 1 : B E
part 4 sound elements 2 held 1 due 1 : C F
part 5 sound elements 3 held 3 due 3 : D E F
part 6 sound elements 1 held 0 due 0 : G
$ complete
sketch 1
point A 2 2
circle C 2 2 1
end
> 6
no completion stuck
verdict open
elements 2
constraints 0
parts 2
part 1 sound elements 1 held 0 due 0 : A
part 2 sound elements 1 held 0 due 0 : C
$ complete
sketch 1
point A -600000 0
point B 600000 0
end
> 6
no completion stuck
verdict open
elements 2
constraints 0
parts 2
part 1 sound elements 1 held 0 due 0 : A
part 2 sound elements 1 held 0 due 0 : B
$ complete
sketch 1
line L 0 0 100 0
line M 0 0 100 0.005
end
> 6
no completion stuck
verdict open
elements 2
constraints 0
parts 2
part 1 sound elements 1 held 0 due 0 : L
part 2 sound elements 1 held 0 due 0 : M
$ complete
sketch 1
point A 0 0
point A 1 0
end
> 1
refused line 3 E5 name-taken
";
