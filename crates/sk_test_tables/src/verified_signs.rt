//! Claims through the command, of drawings with angles and rigid blocks.

/// An angle may be off by so much as the tolerance, and no sign may be turned over, also that of a block.
pub const SIGNS: &str = "
$ verify
sketch 1
line X 0 0 100 0
line Y 0 0 0 80
circle H 30 8 5
angle X Y 1/0
tangent X H
distance H Y 30
end
step s1 joins c3 c2 c1 at H X Y keeps c1 none
line X 0 1000000000 0
line Y -1000000000 0 0
circle H 30000000 5000000 5000000
tolerance 0 0
> 0
verified steps 1 length 0 nm angle 0 ppb
$ verify
sketch 1
line X 0 0 100 0
line Y 0 0 0 80
circle H 30 8 5
angle X Y 1/0
tangent X H
distance H Y 30
end
step s1 joins c3 c2 c1 at H X Y keeps c1 advance +
line X 0 1000000000 0
line Y -1000000000 0 0
circle H 30000000 5000000 5000000
tolerance 0 0
> 9
verify fails s1
$ verify
sketch 1
line X 0 0 100 0
line Y 0 0 0 80
circle H 30 8 5
angle X Y 1/0
tangent X H
distance H Y 30
end
step s1 joins c3 c2 c1 at H X Y keeps c1 none
line X 0 1000000000 0
line Y -1000000000 5 0
circle H 30000000 5000000 5000000
tolerance 0 4
> 9
verify fails c1
$ verify
sketch 1
line X 0 0 100 0
line Y 0 0 0 80
circle H 30 8 5
angle X Y 1/0
tangent X H
distance H Y 30
end
step s1 joins c3 c2 c1 at H X Y keeps c1 none
line X 0 1000000000 0
line Y -1000000000 5 0
circle H 30000000 5000000 5000000
tolerance 0 5
> 9
verify fails c3
$ verify
sketch 1
line X 0 0 100 0
line Y 0 0 0 80
circle H 30 8 5
angle X Y 1/0
tangent X H
distance H Y 30
end
step s1 joins c3 c2 c1 at H X Y keeps c1 none
line X 0 1000000000 0
line Y -1000000000 5 0
circle H 30000000 5000000 5000000
tolerance 1 5
> 0
verified steps 1 length 1 nm angle 5 ppb
$ verify
sketch 1
line X 0 0 100 0
line Y 0 0 0 80
circle H 30 8 5
angle X Y 1/0
tangent X H
distance H Y 30
end
step s1 joins c3 c2 c1 at H X Y keeps c1 none
line X 0 1000000000 0
line Y 1000000000 0 0
circle H -30000000 5000000 5000000
tolerance 0 0
> 9
verify fails sign c1
$ verify
sketch 1
circle H 0 0 5
circle K 5 0 2
line T 0 -6 10 1.5
distance H K 5
tangent T H
tangent T K
end
step s1 joins c3 c2 c1 at T H K keeps c1 advance +
circle H 0 0 5000000
circle K 5000000 0 2000000
line T -600000000 800000000 -5000000
tolerance 0 0
> 0
verified steps 1 length 0 nm angle 0 ppb
$ verify
sketch 1
circle H 0 0 5
circle K 5 0 2
line T 0 -6 10 1.5
distance H K 5
tangent T H
tangent T K
end
step s1 joins c3 c2 c1 at T H K keeps c1 advance +
circle H 0 0 5000000
circle K 5000000 0 2000000
line T -600000000 -800000000 -5000000
tolerance 0 0
> 9
verify fails sign s1
$ verify
sketch 1
circle H 0 0 5
circle K 5 0 2
line T 0 -6 10 1.5
distance H K 5
tangent T H
tangent T K
end
step s1 joins c3 c2 c1 at T H K keeps c1 advance -
circle H 0 0 5000000
circle K 5000000 0 2000000
line T -600000000 -800000000 -5000000
tolerance 0 0
> 9
verify fails s1
$ verify
sketch 1
point A 0 0
point B 40 0
point C 40 25
point D 0 25
line S 0 0 40 0
line E 40 0 40 25
line N 40 25 0 25
line W 0 25 0 0
on A S
on A W
on B S
on B E
on C E
on C N
on D N
on D W
angle S E 1/0
angle E N 1/0
angle N W 1/0
distance A B 40
distance B C 25
end
step s1 joins c9 c4 c3 at E B S keeps c3 none
step s2 joins c10 c6 c5 at N C E keeps c5 none
step s3 joins c11 c8 c7 at W D N keeps c7 none
step s4 joins s1 c12 c1 at B A S keeps s1 advance +
step s5 joins s4 s2 c13 at E C B keeps s4 advance +
step s6 joins s5 s3 c2 at N W A keeps s5 none
point A -40000000 0
point B 0 0
point C 0 25000000
point D -40000000 25000000
line S 0 1000000000 0
line E -1000000000 0 0
line N 0 -1000000000 -25000000
line W 1000000000 0 -40000000
tolerance 0 0
> 0
verified steps 6 length 0 nm angle 0 ppb
$ verify
sketch 1
point A 0 0
point B 40 0
point C 40 25
point D 0 25
line S 0 0 40 0
line E 40 0 40 25
line N 40 25 0 25
line W 0 25 0 0
on A S
on A W
on B S
on B E
on C E
on C N
on D N
on D W
angle S E 1/0
angle E N 1/0
angle N W 1/0
distance A B 40
distance B C 25
end
step s1 joins c9 c4 c3 at E B S keeps c3 none
step s2 joins c10 c6 c5 at N C E keeps c5 none
step s3 joins c11 c8 c7 at W D N keeps c7 none
step s4 joins s1 c12 c1 at B A S keeps s1 advance +
step s5 joins s4 s2 c13 at E C B keeps s4 advance +
point A -40000000 0
point B 0 0
point C 0 25000000
point D -40000000 25000000
line S 0 1000000000 0
line E -1000000000 0 0
line N 0 -1000000000 -25000000
line W 1000000000 0 -40000000
tolerance 0 0
> 9
verify fails parts
$ verify
sketch 1
point A 0 0
point B 40 0
point C 40 25
point D 0 25
line S 0 0 40 0
line E 40 0 40 25
line N 40 25 0 25
line W 0 25 0 0
on A S
on A W
on B S
on B E
on C E
on C N
on D N
on D W
angle S E 1/0
angle E N 1/0
angle N W 1/0
distance A B 40
distance B C 25
end
step s1 joins c9 c4 c3 at E B S keeps c3 none
step s2 joins c10 c6 c5 at N C E keeps c5 none
step s3 joins c11 c8 c7 at W D N keeps c7 none
step s4 joins s1 c12 c1 at B A S keeps s1 advance +
step s5 joins s4 s2 c13 at E C B keeps s2 advance +
step s6 joins s5 s3 c2 at N W A keeps s5 none
point A -40000000 0
point B 0 0
point C 0 25000000
point D -40000000 25000000
line S 0 1000000000 0
line E -1000000000 0 0
line N 0 -1000000000 -25000000
line W 1000000000 0 -40000000
tolerance 0 0
> 9
verify fails s5
$ verify
sketch 1
point A 0 0
point B 40 0
point C 40 25
point D 0 25
line S 0 0 40 0
line E 40 0 40 25
line N 40 25 0 25
line W 0 25 0 0
on A S
on A W
on B S
on B E
on C E
on C N
on D N
on D W
angle S E 1/0
angle E N 1/0
angle N W 1/0
distance A B 40
distance B C 25
end
step s1 joins c9 c4 c3 at E B S keeps c3 none
step s2 joins c11 c8 c7 at W D N keeps c7 none
step s3 joins c10 c6 c5 at N C E keeps c5 none
step s4 joins s1 c12 c1 at B A S keeps s1 advance +
step s5 joins s4 s2 c13 at E C B keeps s4 advance +
step s6 joins s5 s3 c2 at N W A keeps s5 none
point A -40000000 0
point B 0 0
point C 0 25000000
point D -40000000 25000000
line S 0 1000000000 0
line E -1000000000 0 0
line N 0 -1000000000 -25000000
line W 1000000000 0 -40000000
tolerance 0 0
> 9
verify fails s5
$ verify
sketch 2
point A 0 0
point B 4 0
point C 4 3
point D 0 3
point E 0 6
block A 0 0 B 4 0 C 4 3
block C 0 0 D 4 0 E 4 -3
distance A D 3
end
step s1 joins c3 c2 c1 at D C A keeps c1 turn +
point A 0 0
point B 4000000 0
point C 4000000 3000000
point D 0 3000000
point E 0 6000000
tolerance 0 0
> 0
verified steps 1 length 0 nm angle 0 ppb
$ verify
sketch 2
point A 0 0
point B 4 0
point C 4 3
point D 0 3
point E 0 6
block A 0 0 B 4 0 C 4 3
block C 0 0 D 4 0 E 4 -3
distance A D 3
end
step s1 joins c3 c2 c1 at D C A keeps c1 turn +
point A 0 0
point B 4000000 0
point C 4000000 3000000
point D 0 3000000
point E -3000000 3000000
tolerance 1999999 0
> 9
verify fails c2
$ verify
sketch 2
point A 0 0
point B 4 0
point C 4 3
point D 0 3
point E 0 6
block A 0 0 B 4 0 C 4 3
block C 0 0 D 4 0 E 4 -3
distance A D 3
end
step s1 joins c3 c2 c1 at D C A keeps c1 turn +
point A 0 0
point B 4000000 0
point C 4000000 3000000
point D 0 3000000
point E -3000000 3000000
tolerance 2000000 0
> 9
verify fails sign c2
$ verify
sketch 2
point A 0 0
point B 4 0
point C 4 3
point D 0 3
point E 0 6
block A 0 0 B 4 0 C 4 3
block C 0 0 D 4 0 E 4 -3
distance A D 3
end
step s1 joins c3 c2 c1 at D C A keeps c1 turn +
point A 0 0
point B 4000000 0
point C 4000000 3000000
point D 0 3000000
point E 0 0
tolerance 0 0
> 9
verify fails sign c2
$ verify
sketch 2
# a bar
point A 0 0
point B 1 1 # its end
block A 0 0 B 1 1
end # of the bar
point A 0 0
point B 1000000 1000000
tolerance 0 0
> 0
verified steps 0 length 0 nm angle 0 ppb
";
