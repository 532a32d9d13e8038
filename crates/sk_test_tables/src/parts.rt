//! Parts, each with its shape.

/// The two halves of a hinge; a triangle beside a lone point, in two orders and on two grids; a part that is over
/// beside a sound one; a triangle that doesn't meet beside a rod; a rod above its limit beside another; a sketch that
/// is well, where the lines behind its part are those of `solve`; a block beside a line; a triangle at points of a
/// coarse grid; and texts that aren't sketches.
pub const PARTS: &str = "
$ parts
sketch 1
point Pin 0 0
line Wall 0 0 100 0
line Door 0 0 70 70
circle W1 30 0 4
circle W2 80 0 4
circle D1 21 21 4
circle D2 56 56 4
on Pin Wall
on W1 Wall
distance Pin W1 30
on W2 Wall
distance Pin W2 80
on Pin Door
on D1 Door
distance Pin D1 30
on D2 Door
distance Pin D2 80
end
> 0
verdict open
parts 2
part 1 sound elements 4 held 5 due 5 : Pin Wall W1 W2
steps 2
bits 38
point Pin 0 0
line Wall 0 1000000000 0
circle W1 30000000 0 4000000
circle W2 80000000 0 4000000
length tolerance 0 nm at c1
angle tolerance 0 ppb at line Wall
part 2 sound elements 4 held 5 due 5 : Pin Door D1 D2
steps 2
bits 38
point Pin 0 0
line Door 0 1000000000 0
circle D1 30000000 0 4000000
circle D2 80000000 0 4000000
length tolerance 0 nm at c6
angle tolerance 0 ppb at line Door
$ parts
sketch 1
point A 0 0
point B 4 0
point C 0 3
point D 7 7
distance A B 4
distance A C 3
distance B C 5
end
> 0
verdict open
parts 2
part 1 sound elements 3 held 3 due 3 : A B C
steps 1
bits 38
point A 0 0
point B 4000000 0
point C 0 3000000
length tolerance 0 nm at c1
angle tolerance 0 ppb at none
part 2 sound elements 1 held 0 due 0 : D
steps 0
bits 38
point D 0 0
length tolerance 0 nm at none
angle tolerance 0 ppb at none
$ parts order=last bits=16
sketch 1
point A 0 0
point B 4 0
point C 0 3
point D 7 7
distance A B 4
distance A C 3
distance B C 5
end
> 0
verdict open
parts 2
part 1 sound elements 3 held 3 due 3 : A B C
steps 1
bits 16
point A 0 0
point B 4000000 0
point C 0 3000000
length tolerance 0 nm at c1
angle tolerance 0 ppb at none
part 2 sound elements 1 held 0 due 0 : D
steps 0
bits 16
point D 0 0
length tolerance 0 nm at none
angle tolerance 0 ppb at none
$ parts
sketch 1
point A 0 0
point B 4 0
point C 0 3
point D 7 7
distance A B 4
distance C D 8
distance A B 4
end
> 0
verdict over
parts 2
part 1 over elements 2 held 2 due 1 : A B
part 2 sound elements 2 held 1 due 1 : C D
steps 0
bits 38
point C 0 0
point D 8000000 0
length tolerance 0 nm at c2
angle tolerance 0 ppb at none
$ parts
sketch 1
point A 0 0
point B 4 0
point C 0 3
point D 7 7
point E 9 7
distance D E 2
distance A B 4
distance A C 3
distance B C 9
end
> 0
verdict open
parts 2
part 1 sound elements 3 held 3 due 3 : A B C
fault s1 build height C gap -10995116277760 -10995116277760 bits 38
part 2 sound elements 2 held 1 due 1 : D E
steps 0
bits 38
point D 0 0
point E 2000000 0
length tolerance 0 nm at c1
angle tolerance 0 ppb at none
$ parts bits=16 within=1
sketch 1
point A 0 0
point B 1 0
point C 5 5
point D 5 8
distance A B 0.003
distance C D 3
end
> 0
verdict open
parts 2
part 1 sound elements 2 held 1 due 1 : A B
fault c1 tolerance 2 nm limit 1
part 2 sound elements 2 held 1 due 1 : C D
steps 0
bits 16
point C 0 0
point D 3000000 0
length tolerance 0 nm at c2
angle tolerance 0 ppb at none
$ parts
sketch 1
point A 0 0
point B 4 0
point C 0 3
distance A B 4
distance A C 3
distance B C 5
end
> 0
verdict well
parts 1
part 1 sound elements 3 held 3 due 3 : A B C
steps 1
bits 38
point A 0 0
point B 4000000 0
point C 0 3000000
length tolerance 0 nm at c1
angle tolerance 0 ppb at none
$ parts
sketch 2
point A 0 0
point B 4 0
point C 4 3
point D 9 9
line L 0 0 1 0
on D L
block A 0 0 B 4 0 C 4 3
end
> 0
verdict open
parts 2
part 1 sound elements 3 held 3 due 3 : A B C
steps 0
bits 38
point A 0 0
point B 4000000 0
point C 4000000 3000000
length tolerance 0 nm at c2
angle tolerance 0 ppb at none
part 2 sound elements 2 held 1 due 1 : D L
steps 0
bits 38
point D 0 0
line L 0 1000000000 0
length tolerance 0 nm at c1
angle tolerance 0 ppb at line L
$ parts bits=16 place=points
sketch 1
point A 0 0
point B 10 0
point C 5 8
point D 20 20
distance A B 10
distance B C 10
distance C A 10
end
> 0
verdict open
parts 2
part 1 sound elements 3 held 3 due 3 : A B C
steps 1
bits 16
point A 0 0
point B 10000000 0
point C 5000000 8660248
length tolerance 6 nm at c2
angle tolerance 0 ppb at none
part 2 sound elements 1 held 0 due 0 : D
steps 0
bits 16
point D 0 0
length tolerance 0 nm at none
angle tolerance 0 ppb at none
$ parts
sketch 1
end
> 1
refused line 2 E18 empty
$ parts
sketch 1
point A 0 0
distance A B 3
end
> 1
refused line 3 E6 unknown
";
