//! How far given places are off.

/// A triangle where it is drawn, and moved; a length half a micrometre too long, within the limit and beyond it; six lengths
/// of four points, of which one contradicts the others; lines and a circle, an angle that is off, and one that is turned
/// over; a block that is turned over; a circle on the other side of a line; a normal that is too long; no constraint; an
/// element without a line; and a circle with another radius.
pub const MEASURED: &str = "
$ measure
sketch 1
point A 0 0
point B 4 0
point C 4 3
distance A B 4
distance A C 5
distance B C 3
end
point C 4000000 3000000
point A 0 0
point B 4000000 0
end
> 0
c1 : distance A B 4 off 0 nm
c2 : distance A C 5 off 0 nm
c3 : distance B C 3 off 0 nm
length tolerance 0 nm at c1
angle tolerance 0 ppb at none
$ measure
sketch 1
point A 0 0
point B 4 0
point C 4 3
distance A B 4
distance A C 5
distance B C 3
end
point A 7000000 1000000

\tpoint B  7000000 5000000
point C 4000000 5000000
end
> 0
c1 : distance A B 4 off 0 nm
c2 : distance A C 5 off 0 nm
c3 : distance B C 3 off 0 nm
length tolerance 0 nm at c1
angle tolerance 0 ppb at none
$ measure
sketch 1
point A 0 0
point B 4 0
point C 4 3
distance A B 4
distance A C 5
distance B C 3
end
point A 0 0
point B 4000500 0
point C 4000000 3000000
end
> 0
c1 : distance A B 4 off 500 nm
c2 : distance A C 5 off 0 nm
c3 : distance B C 3 off 1 nm
length tolerance 500 nm at c1
angle tolerance 0 ppb at none
$ measure within=499
sketch 1
point A 0 0
point B 4 0
point C 4 3
distance A B 4
distance A C 5
distance B C 3
end
point A 0 0
point B 4000500 0
point C 4000000 3000000
end
> 8
c1 : distance A B 4 off 500 nm
c2 : distance A C 5 off 0 nm
c3 : distance B C 3 off 1 nm
length tolerance 500 nm at c1
angle tolerance 0 ppb at none
fault c1 tolerance 500 nm limit 499
$ measure within=1000000
sketch 1
point A 0 0
point B 4 0
point C 4 3
point D 0 3
distance A B 4
distance A C 5
distance A D 3
distance B C 3
distance B D 5
distance C D 4.5
end
point A 0 0
point B 4000000 0
point C 4000000 3000000
point D 0 3000000
end
> 0
c1 : distance A B 4 off 0 nm
c2 : distance A C 5 off 0 nm
c3 : distance A D 3 off 0 nm
c4 : distance B C 3 off 0 nm
c5 : distance B D 5 off 0 nm
c6 : distance C D 4.5 off -500000 nm
length tolerance 500000 nm at c6
angle tolerance 0 ppb at none
$ measure
sketch 1
line X 0 0 4 0
line Y 0 0 0 3
circle H 2 2 1.5
distance H X 2
distance H Y 2
angle X Y 1/0
end
line X 0 1000000000 0
line Y -1000000000 0 0
circle H 2000000 1999000 1500000
end
> 0
c1 : distance H X 2 off -1000 nm
c2 : distance H Y 2 off 0 nm
c3 : angle X Y 1/0 off 0 ppb
length tolerance 1000 nm at c1
angle tolerance 0 ppb at line X
$ measure
sketch 1
line X 0 0 4 0
line Y 0 0 0 3
circle H 2 2 1.5
distance H X 2
distance H Y 2
angle X Y 1/0
end
line X 0 1000000000 0
line Y -999999500 1000000 0
circle H 2000000 2000000 1500000
end
> 8
c1 : distance H X 2 off 0 nm
c2 : distance H Y 2 off -2001 nm
c3 : angle X Y 1/0 off -1000000 ppb
length tolerance 2001 nm at c2
angle tolerance 1000000 ppb at c3
fault c2 tolerance 2001 nm limit 1000
$ measure
sketch 1
line X 0 0 4 0
line Y 0 0 0 3
circle H 2 2 1.5
distance H X 2
distance H Y 2
angle X Y 1/0
end
line X 0 1000000000 0
line Y 1000000000 0 0
circle H -2000000 2000000 1500000
end
> 7
c1 : distance H X 2 off 0 nm
c2 : distance H Y 2 off 0 nm
c3 : angle X Y 1/0 off 0 ppb turned drawn + placed -1
length tolerance 0 nm at c1
angle tolerance 0 ppb at line X
fault c3 turned drawn + placed -1
$ measure
sketch 2
point A 0 0
point B 4 0
point C 4 3
block A 0 0 B 4 0 C 4 3
end
point A 0 0
point B 4000000 0
point C 4000000 -3000001
end
> 7
c1 : block A 0 0 B 4 0 C 4 3 off 1 nm turned drawn + placed -1
length tolerance 1 nm at c1
angle tolerance 0 ppb at none
fault c1 turned drawn + placed -1
$ measure within=1000000
sketch 1
line X 0 0 4 0
line Y 0 0 0 3
circle H 2 2 1.5
distance H X 2
distance H Y 2
angle X Y 1/0
end
line X 0 1000000000 0
line Y -1000000000 0 0
circle H 2000000 -2000000 1500000
end
> 8
c1 : distance H X 2 off -4000000 nm
c2 : distance H Y 2 off 0 nm
c3 : angle X Y 1/0 off 0 ppb
length tolerance 4000000 nm at c1
angle tolerance 0 ppb at line X
fault c1 tolerance 4000000 nm limit 1000000
$ measure
sketch 1
line X 0 0 4 0
line Y 0 0 0 3
circle H 2 2 1.5
distance H X 2
distance H Y 2
angle X Y 1/0
end
line X 0 1000001000 0
line Y -1000000000 0 0
circle H 2000000 2000000 1500000
end
> 8
c1 : distance H X 2 off 2 nm
c2 : distance H Y 2 off 0 nm
c3 : angle X Y 1/0 off 0 ppb
length tolerance 2 nm at c1
angle tolerance 2001 ppb at line X
fault line X tolerance 2001 ppb limit 1000
$ measure
sketch 1
point A 0 0
point B 1 0
end
point A 5 5
point B 5 5
end
> 0
length tolerance 0 nm at none
angle tolerance 0 ppb at none
$ measure
sketch 1
point A 0 0
point B 4 0
point C 4 3
distance A B 4
distance A C 5
distance B C 3
end
point A 0 0
point B 4000000 0
end
> 9
measure fails element C
$ measure
sketch 1
line X 0 0 4 0
line Y 0 0 0 3
circle H 2 2 1.5
distance H X 2
distance H Y 2
angle X Y 1/0
end
line X 0 1000000000 0
line Y -1000000000 0 0
circle H 2000000 2000000 1500001
end
> 9
measure fails element H
";

/// A line of the sketch, and lines behind it: no `end`, a line behind the end, words behind the `end`, another first word, a
/// name that is not declared, another kind, no whole number, one that is too great, and an element twice.
pub const REFUSED_PLACES: &str = "
$ measure
sketch 1
point A 0 0
point A 1 0
end
point A 0 0
end
> 1
refused line 3 E5 name-taken
$ measure
sketch 1
point A 0 0
point B 4 0
point C 4 3
distance A B 4
distance A C 5
distance B C 3
end
point A 0 0
point B 4000000 0
point C 4000000 3000000
> 1
refused line 12 E16 no-end
$ measure
sketch 1
point A 0 0
point B 4 0
point C 4 3
distance A B 4
distance A C 5
distance B C 3
end
point A 0 0
end
point B 4000000 0
end
> 1
refused line 11 E17 after-end
$ measure
sketch 1
point A 0 0
point B 4 0
point C 4 3
distance A B 4
distance A C 5
distance B C 3
end
point A 0 0
end of it
> 1
refused line 10 E3 shape
$ measure
sketch 1
point A 0 0
point B 4 0
point C 4 3
distance A B 4
distance A C 5
distance B C 3
end
point A 0 0
tolerance 0 0
end
> 1
refused line 10 E2 word
$ measure
sketch 1
point A 0 0
point B 4 0
point C 4 3
distance A B 4
distance A C 5
distance B C 3
end
point A 0 0
point D 4000000 0
end
> 1
refused line 10 E6 unknown
$ measure
sketch 1
line X 0 0 4 0
line Y 0 0 0 3
circle H 2 2 1.5
distance H X 2
distance H Y 2
angle X Y 1/0
end
circle X 0 1000000000 0
end
> 1
refused line 9 E7 kind
$ measure
sketch 1
point A 0 0
point B 4 0
point C 4 3
distance A B 4
distance A C 5
distance B C 3
end
point A 0 0.5
end
> 1
refused line 9 E8 number
$ measure
sketch 1
point A 0 0
point B 4 0
point C 4 3
distance A B 4
distance A C 5
distance B C 3
end
point A 0 1152921504606846977
end
> 1
refused line 9 E8 number
$ measure
sketch 1
point A 0 0
point B 4 0
point C 4 3
distance A B 4
distance A C 5
distance B C 3
end
point A 0 0
point B 4000000 0
point C 4000000 3000000
point B 4000000 0
end
> 1
refused line 12 E5 name-taken
";
