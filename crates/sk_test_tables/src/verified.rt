//! Claims through the command.

/// The steps have the names, the kept cluster and the choice of the plan, each element has a place and a circle its radius. A
/// length and a line's normal may be off by so much as the tolerance. Of several failures the first in that order is told. Lines
/// may come in another order and with other blanks, and numbers with zeros in front.
pub const VERIFIED: &str = "
$ verify
sketch 1
point A 0 0
point B 4 0
point C 4 3
distance A B 4
distance A C 5
distance B C 3
end
step s1 joins c3 c2 c1 at C A B keeps c1 turn +
point A 0 0
point B 4000000 0
point C 4000000 3000000
tolerance 0 0
> 0
verified steps 1 length 0 nm angle 0 ppb
$ verify
sketch 1
point A 0 0
point B 4 0
point C 4 3
distance A B 4
distance A C 5
distance B C 3
end
step s1 joins c3 c2 c1 at C A B keeps c1 turn +
point A 0 0
point B 4000000 0
point C 4000000 -3000000
tolerance 0 0
> 9
verify fails sign s1
$ verify
sketch 1
point A 0 0
point B 4 0
point C 4 3
distance A B 4
distance A C 5
distance B C 3
end
step s1 joins c3 c2 c1 at C A B keeps c1 turn +
point A 0 0
point B 4000000 0
point C 4000000 3000001
tolerance 0 0
> 9
verify fails c2
$ verify
sketch 1
point A 0 0
point B 4 0
point C 4 3
distance A B 4
distance A C 5
distance B C 3
end
step s1 joins c3 c2 c1 at C B A keeps c1 turn +
point A 0 0
point B 4000000 0
point C 4000000 3000000
tolerance 0 0
> 9
verify fails s1
$ verify
sketch 1
point A 0 0
point B 4 0
point C 4 3
distance A B 4
distance A C 5
distance B C 3
end
point A 0 0
point B 4000000 0
point C 4000000 3000000
tolerance 0 0
> 9
verify fails parts
$ verify
sketch 1
point A 0 0
point B 4 0
point C 4 3
distance A B 4
distance A C 5
distance B C 3
end
step s1 joins c3 c2 c1 at C A B keeps c1 turn +
point A 0 0
point B 4000000 0
point C 4000000 3000001
tolerance 1 0
> 0
verified steps 1 length 1 nm angle 0 ppb
$ verify
sketch 1
point A 0 0
point B 4 0
point C 4 3
distance A B 4
distance A C 5
distance B C 3
end
step s1 joins c3 c2 c1 at C A B keeps c1 turn +
point A 0 0
point B 4000000 0
point C 4000000 3000010
tolerance 6 0
> 9
verify fails c2
$ verify
sketch 1
point A 0 0
point B 4 0
point C 4 3
distance A B 4
distance A C 5
distance B C 3
end
step s1 joins c3 c2 c1 at C A B keeps c1 turn +
point A 0 0
point B 4000000 0
point C 4000000 3000010
tolerance 7 0
> 9
verify fails c3
$ verify
sketch 1
point A 0 0
point B 4 0
point C 4 3
distance A B 4
distance A C 5
distance B C 3
end
step s1 joins c3 c2 c1 at C A B keeps c1 turn +
point A 0 0
point B 4000000 0
point C 4000000 3000010
tolerance 9 0
> 9
verify fails c3
$ verify
sketch 1
point A 0 0
point B 4 0
point C 4 3
distance A B 4
distance A C 5
distance B C 3
end
step s1 joins c3 c2 c1 at C A B keeps c1 turn +
point A 0 0
point B 4000000 0
point C 4000000 3000010
tolerance 10 0
> 0
verified steps 1 length 10 nm angle 0 ppb
$ verify
sketch 1
point A 0 0
point B 4 0
point C 4 3
distance A B 4
distance A C 5
distance B C 3
end

  point C 4000000 3000000
\tpoint\t B 04000000   -0
step s1  joins c3 c2 c1 at C A B keeps c1 turn +

point A 0 0\r
tolerance 0000 -0

 \t
> 0
verified steps 1 length 0 nm angle 0 ppb
$ verify
sketch 1
point A 0 0
point B 4 0
point C 4 3
distance A B 4
distance A C 5
distance B C 3
end
step s1 joins c3 c2 c1 at C A B keeps c1 turn -
point A 0 0
point B 4000000 0
point C 4000000 3000000
tolerance 0 0
> 9
verify fails s1
$ verify
sketch 1
point A 0 0
point B 4 0
point C 4 3
distance A B 4
distance A C 5
distance B C 3
end
step s1 joins c3 c2 c1 at C A B keeps c1 advance +
point A 0 0
point B 4000000 0
point C 4000000 3000000
tolerance 0 0
> 9
verify fails s1
$ verify
sketch 1
point A 0 0
point B 4 0
point C 4 3
distance A B 4
distance A C 5
distance B C 3
end
step s1 joins c3 c2 c1 at C A B keeps c1 none
point A 0 0
point B 4000000 0
point C 4000000 3000000
tolerance 0 0
> 9
verify fails s1
$ verify
sketch 1
point A 0 0
point B 4 0
point C 4 3
distance A B 4
distance A C 5
distance B C 3
end
step s2 joins c3 c2 c1 at C A B keeps c1 turn +
point A 0 0
point B 4000000 0
point C 4000000 3000000
tolerance 0 0
> 9
verify fails s1
$ verify
sketch 1
point A 0 0
point B 4 0
point C 4 3
distance A B 4
distance A C 5
distance B C 3
end
step c1 joins c3 c2 c1 at C A B keeps c1 turn +
point A 0 0
point B 4000000 0
point C 4000000 3000000
tolerance 0 0
> 9
verify fails s1
$ verify
sketch 1
point A 0 0
point B 4 0
point C 4 3
distance A B 4
distance A C 5
distance B C 3
end
step s1 joins c3 c2 c1 at C A B keeps c2 turn +
point A 0 0
point B 4000000 0
point C 4000000 3000000
tolerance 0 0
> 9
verify fails s1
$ verify
sketch 1
point A 0 0
point B 4 0
point C 4 3
distance A B 4
distance A C 5
distance B C 3
end
step s1 joins c1 c2 c3 at A C B keeps c1 turn +
point A 0 0
point B 4000000 0
point C 4000000 3000000
tolerance 0 0
> 9
verify fails s1
$ verify
sketch 1
point A 0 0
point B 4 0
point C 4 3
distance A B 4
distance A C 5
distance B C 3
end
step s1 joins c4 c2 c1 at C A B keeps c1 turn +
point A 0 0
point B 4000000 0
point C 4000000 3000000
tolerance 0 0
> 9
verify fails s1
$ verify
sketch 1
point A 0 0
point B 4 0
point C 4 3
distance A B 4
distance A C 5
distance B C 3
end
step s1 joins c3 c2 c1 at C A B keeps c1 turn +
step s1 joins c3 c2 c1 at C A B keeps c1 turn +
point A 0 0
point B 4000000 0
point C 4000000 3000000
tolerance 0 0
> 9
verify fails s2
$ verify
sketch 1
point A 0 0
point B 4 0
point C 4 3
distance A B 4
distance A C 5
distance B C 3
end
step s1 joins c3 c2 c1 at C A B keeps c1 turn -
tolerance 0 0
> 9
verify fails s1
$ verify
sketch 1
point A 0 0
point B 4 0
point C 4 3
distance A B 4
distance A C 5
distance B C 3
end
point A 0 0
point B 4000000 0
tolerance 0 0
> 9
verify fails parts
$ verify
sketch 1
point A 0 0
point B 4 0
point C 4 3
distance A B 4
distance A C 5
distance B C 3
end
step s1 joins c3 c2 c1 at C A B keeps c1 turn +
tolerance 0 0
> 9
verify fails element A
$ verify
sketch 1
point A 0 0
point B 4 0
point C 4 3
distance A B 4
distance A C 5
distance B C 3
end
step s1 joins c3 c2 c1 at C A B keeps c1 turn +
point A 0 0
point C 4000000 3000001
tolerance 0 0
> 9
verify fails element B
$ verify
sketch 1
point A 0 0
point B 4 0
point C 4 3
distance A B 4
distance A C 5
distance B C 3
end
step s1 joins c3 c2 c1 at C A B keeps c1 turn +
point A 0 0
point B 4000000 0
point C 4000000 -3000001
tolerance 0 0
> 9
verify fails c2
$ verify
sketch 1
point A 0 0
point B 1 0
end
point A 0 0
point B 1000000 0
tolerance 0 0
> 9
verify fails parts
$ verify
sketch 1
point A 0 0
point B 1 0
distance A B 1
distance A B 1
end
point A 0 0
point B 1000000 0
tolerance 0 0
> 9
verify fails parts
$ verify
sketch 1
point A 7 7
end
point A -1152921504606846976 1152921504606846976
tolerance 4611686018427387904 4611686018427387904
> 0
verified steps 0 length 4611686018427387904 nm angle 4611686018427387904 ppb
$ verify
sketch 1
line L 0 0 1 0
end
line L 2000000000 -2000000000 1152921504606846976
tolerance 0 7000000000
> 0
verified steps 0 length 0 nm angle 7000000000 ppb
$ verify
sketch 1
line L 0 0 1 0
end
line L 2000000000 -2000000000 1152921504606846976
tolerance 0 6999999999
> 9
verify fails line L
$ verify
sketch 1
line L 0 0 1 0
circle H 0 5 5
tangent H L
end
line L 0 1000000000 0
circle H 0 5000000 5000000
tolerance 0 0
> 0
verified steps 0 length 0 nm angle 0 ppb
$ verify
sketch 1
line L 0 0 1 0
circle H 0 5 5
tangent H L
end
line L 0 1000000000 0
circle H 0 5000000 5000001
tolerance 0 0
> 9
verify fails element H
$ verify
sketch 1
line L 0 0 1 0
circle H 0 5 5
tangent H L
end
line L 0 1000000003 0
circle H 0 5000000 5000000
tolerance 0 0
> 9
verify fails line L
$ verify
sketch 1
line L 0 0 1 0
circle H 0 5 5
tangent H L
end
line L 0 1000000003 0
circle H 0 5000000 5000000
tolerance 1 6
> 9
verify fails line L
$ verify
sketch 1
line L 0 0 1 0
circle H 0 5 5
tangent H L
end
line L 0 1000000003 0
circle H 0 5000000 5000000
tolerance 0 7
> 9
verify fails c1
$ verify
sketch 1
line L 0 0 1 0
circle H 0 5 5
tangent H L
end
line L 0 1000000003 0
circle H 0 5000000 5000000
tolerance 1 7
> 0
verified steps 0 length 1 nm angle 7 ppb
";
