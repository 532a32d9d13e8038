//! What claims are read as, what a check of them tells, and lines of claims that are refused.

/// What the claims below are about.
pub const WHEEL: &str = "\
sketch 1
circle A 0 0 1
point B 4 0
point C 4 3
distance A B 4
distance A C 5
distance B C 3
end
";

/// Mirrored, C is on the other side of A and B than it is drawn. A step that turns the other way is found wrong before that.
pub const CLAIMS: &str = "
$ claim
step s1 joins c3 c2 c1 at C A B keeps c1 turn +
circle A 0 0 1000000
point C 4000000 -3000000
point B 4000001 0
tolerance 1 2
> PlanStep { step: Step(1), one: Con(3), two: Con(2), three: Con(1), a: Elem(3), b: Elem(1), c: Elem(2), keeps: Con(1), choice: Turn(Plus) }
Spot { elem: Elem(1), at: Point { x: 0, y: 0 } }
Spot { elem: Elem(3), at: Point { x: 4000000, y: -3000000 } }
Spot { elem: Elem(2), at: Point { x: 4000001, y: 0 } }
Radius { elem: Elem(1), nm: 1000000 }
1
2
verify fails sign s1
$ claim
step s1 joins c3 c2 c1 at C A B keeps c1 turn -
tolerance 0 0
> PlanStep { step: Step(1), one: Con(3), two: Con(2), three: Con(1), a: Elem(3), b: Elem(1), c: Elem(2), keeps: Con(1), choice: Turn(Minus) }
0
0
verify fails s1
$ claim
step s1 joins c3 c2 c1 at C A B keeps c1 turn +
point B 4000000 0
point C 4000000 3000000
circle A 0 0 1000000
tolerance 0 7
> PlanStep { step: Step(1), one: Con(3), two: Con(2), three: Con(1), a: Elem(3), b: Elem(1), c: Elem(2), keeps: Con(1), choice: Turn(Plus) }
Spot { elem: Elem(2), at: Point { x: 4000000, y: 0 } }
Spot { elem: Elem(3), at: Point { x: 4000000, y: 3000000 } }
Spot { elem: Elem(1), at: Point { x: 0, y: 0 } }
Radius { elem: Elem(1), nm: 1000000 }
0
7
verified steps 1 length 0 nm angle 7 ppb
$ claim
point B 0 0
point A 0 0
> refused line 10 E7 kind
$ claim
> refused line 9 E16 no-end
";

/// The sketch that the refused lines below stand behind.
pub const THREE_SHAPES: &str = "\
sketch 1
point A 0 0
circle H 9 0 5
line L 0 0 1 0
end
";

/// Lines of a claim with their codes, each alone or in front of a later one of the same line.
pub const REFUSED_LINES: &str = "
E15 line-too-long: xxxxxxxxxxxxxxxxxxxxxxxxxxxxxxxxxxxxxxxxxxxxxxxxxxxxxxxxxxxxxxxxxxxxxxxxxxxxxxxxxxxxxxxxxxxxxxxxxxxxxxxxxxxxxxxxxxxxxxxxxxxxxxxxxxxxxxxxxxxxxxxxxxxxxxxxxxxxxxxxxxxxxxxxxxxxxxxxxxxxxxxxxxxxxxxxxxxxxxxxx
E15 line-too-long: \x7fxxxxxxxxxxxxxxxxxxxxxxxxxxxxxxxxxxxxxxxxxxxxxxxxxxxxxxxxxxxxxxxxxxxxxxxxxxxxxxxxxxxxxxxxxxxxxxxxxxxxxxxxxxxxxxxxxxxxxxxxxxxxxxxxxxxxxxxxxxxxxxxxxxxxxxxxxxxxxxxxxxxxxxxxxxxxxxxxxxxxxxxxxxxxxxxxxxxxxxxx
E19 not-ascii: \x7f
E19 not-ascii: points A 0\r 0
E2 word: end
E2 word: Step s1
E2 word: points A 0 0
E2 word: distance A H 1
E3 shape: point A 0
E3 shape: point A 0 0 0
E3 shape: circle 9 0 0
E3 shape: line L 0 1
E3 shape: line L 0 1 0 0
E3 shape: tolerance
E3 shape: tolerance 0
E3 shape: tolerance 0 0 0
E3 shape: step s1 joinz c3 c2 c1 at A H L keeps c1
E3 shape: step s1 joinz c3 c2 c1 at A H L keeps c1 turn + +
E2 word: step s1 join c03 c2 c1 at A H L keeps c1 none
E2 word: step s1 joins c3 c2 c1 on A H L keeps c1 none
E2 word: step s1 joins c3 c2 c1 at A H Z holds c1 none
E2 word: step s1 joins c3 c2 c1 at A H L keeps c1 turn
E2 word: step s1 joins c3 c2 c1 at A H L keeps c1 advance
E2 word: step s1 joins c3 c2 c1 at A H L keeps c1 none +
E2 word: step s1 joins c3 c2 c1 at A H L keeps c1 turn 1
E2 word: step s1 joins c3 c2 c1 at A H L keeps c1 drawn +
E4 name: step s0 joins c3 c2 c1 at A H Z keeps c1 none
E4 name: step s01 joins c3 c2 c1 at A H Z keeps c1 none
E4 name: step s1000000 joins c3 c2 c1 at A H Z keeps c1 none
E4 name: step c joins c3 c2 c1 at A H Z keeps c1 none
E4 name: step 1 joins c3 c2 c1 at A H Z keeps c1 none
E4 name: step S1 joins c3 c2 c1 at A H Z keeps c1 none
E4 name: step p1 joins c3 c2 c1 at A H Z keeps c1 none
E4 name: step s1 joins c03 c2 c1 at A H Z keeps c1 none
E4 name: step s1 joins c3 c02 c1 at A H L keeps c1 none
E4 name: step s1 joins c3 c2 c01 at A H L keeps c1 none
E4 name: step s1 joins c3 c2 c1 at Z 9 L keeps c1 none
E4 name: step s1 joins c3 c2 c1 at Z H L keeps c01 turn +
E4 name: point 9 x 0
E4 name: circle _H x 0 0
E4 name: line abcdefghijklmnopq 0 1 0
E6 unknown: step s1 joins c3 c2 c1 at A H Z keeps c1 none
E6 unknown: step s1 joins c3 c2 c1 at Z H L keeps c1 turn -
E6 unknown: point Z x 0
E6 unknown: circle a 0 0 x
E6 unknown: line Z x 0 0
E7 kind: point H x 0
E7 kind: point L x 0
E7 kind: circle A x 0 0
E7 kind: circle L x 0 0
E7 kind: line A x 1 0
E7 kind: line H x 1 0
E8 number: point A 1.5 0
E8 number: point A 0 +1
E8 number: point A - 0
E8 number: point A --1 0
E8 number: point A 1152921504606846977 0
E8 number: point A 0 -1152921504606846977
E8 number: point A 00000000000000000000 0
E8 number: circle H x 0 5
E8 number: circle H 0 x 5
E8 number: circle H 0 0 1152921504606846977
E8 number: line L 2000000001 0 0
E8 number: line L 0 -2000000001 0
E8 number: line L 0 0 1152921504606846977
E8 number: tolerance -1 0
E8 number: tolerance 0 -1
E8 number: tolerance 4611686018427387905 0
E8 number: tolerance 0 4611686018427387905
E8 number: tolerance 1x 0
E8 number: tolerance 00000000000000000000 0";
