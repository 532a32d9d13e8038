//! Drawings told in their own frame.

/// A block, two lines that cross and two that are drawn parallel, a drawing far away, a session, elements alone, a point and
/// a line, a triangle that is drawn upright, also on 27 digits and with its choice turned over, one triangle that is drawn in
/// four directions, lines that meet near, a kilometre away and further, the datum sketch, a turn that is no multiple of a
/// right angle on fine and coarse grids; a box that can't be carried; and two of them in the frame of the base.
pub const FRAMED: &str = "
$ solve frame=drawn
sketch 2
point A 50 10
point B 53 14
point C 55 9
point D 48 18
block A 1 1 B 6 1 C 1 3
distance A D 5
distance B D 5
end
> 0
verdict well
steps 1
bits 38
point A 50000000 10000000
point B 53000000 14000000
point C 48400000 11200000
point D 48035898 14598076
length tolerance 1 nm at c2
angle tolerance 0 ppb at none
$ solve frame=drawn
sketch 1
line X -60 10 40 10
line Y 5 -30 5 70
point P 31 42
angle X Y 1/0
distance P X 30
distance P Y 25
end
> 0
verdict well
steps 1
bits 38
line X 0 1000000000 10000000
line Y -1000000000 0 -5000000
point P 30000000 40000000
length tolerance 0 nm at c2
angle tolerance 0 ppb at line X
$ solve frame=drawn
sketch 1
line X 0 0 3 1
line Y 1 0 0 3
point P 5 5
angle X Y 2/1
distance P X 2
distance P Y 2
end
> 0
verdict well
steps 1
bits 38
line X -316227766 948683298 0
line Y -989949494 141421356 -848528
point P 3337548 3220701
length tolerance 1 nm at c2
angle tolerance 1 ppb at line X
$ solve frame=drawn
sketch 1
point A 1000000 -1000000
line L 0 0 2629 344
point B 1000000 -1000000
on A L
on B L
distance A B 1000000
end
> 8
fault c2 tolerance 1430 nm limit 1000
$ session frame=drawn
point A 1 2
point B 1 7
distance A B 4
solve
end
> 0
ok A
ok B
ok c1
verdict well
steps 0
bits 38
point A 1000000 2000000
point B 1000000 6000000
length tolerance 0 nm at c1
angle tolerance 0 ppb at none
$ solve frame=drawn
sketch 1
line X 1 2 4 6
line Y 0 0 3 4
point P 9 0
angle X Y 3/4
distance P X 5
distance P Y 1
end
> 0
verdict well
steps 1
bits 38
line X -800000000 600000000 400000
line Y -1000000000 0 -1000000
point P 2000000 -5000000
length tolerance 0 nm at c2
angle tolerance 0 ppb at line X
$ solve frame=drawn
sketch 1
line L 3 4 3 9
end
> 0
verdict well
steps 0
bits 38
line L -1000000000 0 -3000000
length tolerance 0 nm at none
angle tolerance 0 ppb at line L
$ solve frame=drawn
sketch 1
circle H 3 4 5
end
> 0
verdict well
steps 0
bits 38
circle H 3000000 4000000 5000000
length tolerance 0 nm at none
angle tolerance 0 ppb at none
$ solve frame=drawn
sketch 1
point A 2 3
point B 2 3
distance A B 5
end
> 0
verdict well
steps 0
bits 38
point A 2000000 3000000
point B 7000000 3000000
length tolerance 0 nm at c1
angle tolerance 0 ppb at none
$ solve frame=drawn
sketch 1
point P 12 7.5
line L 0 0 4 3
point Q 20 10
distance L P 2
on Q L
distance P Q 8
end
> 0
verdict well
steps 1
bits 38
point P 12000000 7500000
line L -600000000 800000000 800000
point Q 16996773 13747580
length tolerance 1 nm at c2
angle tolerance 0 ppb at line L
$ solve
sketch 1
point P 12 7.5
line L 0 0 4 3
point Q 20 10
distance L P 2
on Q L
distance P Q 8
end
> 0
verdict well
steps 1
bits 38
point P 0 -2000000
line L 0 1000000000 0
point Q 7745967 0
length tolerance 1 nm at c3
angle tolerance 0 ppb at line L
$ solve frame=drawn within=1000000
sketch 1
line L 0 0 1 -1
line M 0 0 1 0
point A 0 0
line N 0 0 1000 1
point B 1000 0.5
angle L M 10000/9999
on A L
on A M
angle L N 9999/9998
on A N
distance B M 3000
distance B N 3000
end
> 7
fault frame x B range bits 38
$ solve within=1000000
sketch 1
line L 0 0 1 -1
line M 0 0 1 0
point A 0 0
line N 0 0 1000 1
point B 1000 0.5
angle L M 10000/9999
on A L
on A M
angle L N 9999/9998
on A N
distance B M 3000
distance B N 3000
end
> 8
fault c6 tolerance 184475954 nm limit 1000000
$ solve frame=drawn
sketch 1
point A 10 20
point B 10 24
point C 7 24
distance A B 4
distance A C 5
distance B C 3
end
> 0
verdict well
steps 1
bits 38
point A 10000000 20000000
point B 10000000 24000000
point C 7000000 24000000
length tolerance 0 nm at c1
angle tolerance 0 ppb at none
$ solve frame=drawn bits=27
sketch 1
point A 10 20
point B 10 24
point C 7 24
distance A B 4
distance A C 5
distance B C 3
end
> 0
verdict well
steps 1
bits 27
point A 10000000 20000000
point B 10000000 24000000
point C 7000000 24000000
length tolerance 0 nm at c1
angle tolerance 0 ppb at none
$ solve frame=drawn
sketch 1
point A 1 2
point B 11 2
point C 6 10
distance A B 10
distance A C 10
distance B C 10
end
> 0
verdict well
steps 1
bits 38
point A 1000000 2000000
point B 11000000 2000000
point C 6000000 10660254
length tolerance 1 nm at c2
angle tolerance 0 ppb at none
$ solve frame=drawn
sketch 1
point A 1 2
point B 1 12
point C -7 7
distance A B 10
distance A C 10
distance B C 10
end
> 0
verdict well
steps 1
bits 38
point A 1000000 2000000
point B 1000000 12000000
point C -7660254 7000000
length tolerance 1 nm at c2
angle tolerance 0 ppb at none
$ solve frame=drawn
sketch 1
point A 1 2
point B -9 2
point C -4 -6
distance A B 10
distance A C 10
distance B C 10
end
> 0
verdict well
steps 1
bits 38
point A 1000000 2000000
point B -9000000 2000000
point C -4000000 -6660254
length tolerance 1 nm at c2
angle tolerance 0 ppb at none
$ solve frame=drawn
sketch 1
point A 1 2
point B 1 -8
point C 9 -3
distance A B 10
distance A C 10
distance B C 10
end
> 0
verdict well
steps 1
bits 38
point A 1000000 2000000
point B 1000000 -8000000
point C 9660254 -3000000
length tolerance 1 nm at c2
angle tolerance 0 ppb at none
$ solve frame=drawn
sketch 1
line X 2 5 12 5
line Y 0 0 1000 1
angle X Y 3/4
end
> 0
verdict well
steps 0
bits 38
line X 0 1000000000 5000000
line Y -600000000 800000000 -2996000000
length tolerance 0 nm at none
angle tolerance 0 ppb at line X
$ solve frame=drawn
sketch 1
line X 2 5 12 5
line Y 0 0 1000000 5
angle X Y 1/0
end
> 0
verdict well
steps 0
bits 38
line X 0 1000000000 5000000
line Y -1000000000 0 -1000000000000
length tolerance 0 nm at none
angle tolerance 0 ppb at line X
$ solve frame=drawn
sketch 1
line X 2 5 12 5
line Y 0 0 1000000 4.999
angle X Y 1/0
end
> 0
verdict well
steps 0
bits 38
line X 0 1000000000 5000000
line Y -1000000000 0 -2000000
length tolerance 0 nm at none
angle tolerance 0 ppb at line X
$ solve frame=drawn
sketch 1
point A 3.5 -2
end
> 0
verdict well
steps 0
bits 38
point A 3500000 -2000000
length tolerance 0 nm at none
angle tolerance 0 ppb at none
$ flips frame=drawn
sketch 1
point A 10 20
point B 10 24
point C 7 24
distance A B 4
distance A C 5
distance B C 3
end
flip s1
flip
end
> 0
flip 1 ok
point A 10000000 20000000
point B 10000000 24000000
point C 13000000 24000000
length tolerance 0 nm at c1
angle tolerance 0 ppb at none
flip 2 ok
point A 10000000 20000000
point B 10000000 24000000
point C 7000000 24000000
length tolerance 0 nm at c1
angle tolerance 0 ppb at none
$ grow frame=drawn n=3
> 0
grow 3
elements 3
constraints 3
verdict well
steps 1
sum x 18000000 nm
sum y 32000000 nm
length tolerance 0 nm at c2
angle tolerance 0 ppb at line X
$ solve frame=drawn
sketch 1
point A 0.5 0.25
point B 7 8
point C 0 10
distance A B 10
distance A C 10
distance B C 10
end
> 0
verdict well
steps 1
bits 38
point A 500000 250000
point B 6926123 7911915
point C -2922352 9646143
length tolerance 1 nm at c1
angle tolerance 0 ppb at none
$ solve frame=drawn bits=16 place=boxes
sketch 1
point A 0.5 0.25
point B 7 8
point C 0 10
distance A B 10
distance A C 10
distance B C 10
end
> 0
verdict well
steps 1
bits 16
point A 500000 250000
point B 6926163 7911972
point C -2922386 9646202
length tolerance 74 nm at c3
angle tolerance 0 ppb at none
$ solve bits=16 place=points frame=drawn
sketch 1
point A 0.5 0.25
point B 7 8
point C 0 10
distance A B 10
distance A C 10
distance B C 10
end
> 0
verdict well
steps 1
bits 16
point A 500000 250000
point B 6926163 7911972
point C -2922379 9646194
length tolerance 70 nm at c1
angle tolerance 0 ppb at none
";
