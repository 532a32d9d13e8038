//! Drawings and their construction plans.

/// Plans of sketches that are well, and the report of one that is open.
pub const PLANS: &str = "
$ plan
sketch 1
point A 0 0
point B 4 0
point C 4 3
distance A B 4
distance A C 5
distance B C 3
end
> 0
verdict well
elements 3
constraints 3
steps 1
leaf c1 : distance A B 4
leaf c2 : distance A C 5
leaf c3 : distance B C 3
step s1 joins c3 c2 c1 at C A B keeps c1 turn +
$ plan
sketch 1
point A 0 0
point B 4 0
point C 4 -3
distance A B 4
distance A C 5
distance B C 3
end
> 0
verdict well
elements 3
constraints 3
steps 1
leaf c1 : distance A B 4
leaf c2 : distance A C 5
leaf c3 : distance B C 3
step s1 joins c3 c2 c1 at C A B keeps c1 turn -
$ plan
sketch 1
point A 0 0
point B 4 0
point C 8 0
distance A B 4
distance A C 5
distance B C 3
end
> 0
verdict well
elements 3
constraints 3
steps 1
leaf c1 : distance A B 4
leaf c2 : distance A C 5
leaf c3 : distance B C 3
step s1 joins c3 c2 c1 at C A B keeps c1 turn +
$ plan
sketch 1
point A 0 0
point B 1 0
distance A B 2.50
end
> 0
verdict well
elements 2
constraints 1
steps 0
leaf c1 : distance A B 2.5
$ plan
sketch 1
point A 0 0
point B 1 0
end
> 6
verdict open
elements 2
constraints 0
parts 2
part 1 sound elements 1 held 0 due 0 : A
part 2 sound elements 1 held 0 due 0 : B
$ plan
sketch 1
circle H 0 0 5
circle K 5 0 2
line T 0 -6 10 1.5
distance H K 5
tangent T H
tangent T K
end
> 0
verdict well
elements 3
constraints 3
steps 1
leaf c1 : distance H K 5
leaf c2 : tangent T H
leaf c3 : tangent T K
step s1 joins c3 c2 c1 at T H K keeps c1 advance +
$ plan
sketch 1
point A 0 0
point B 40 0
point C 40 25
point D 0 25
line S 0 0 40 0
line E 40 0 40 25
line N 40 25 0 25
line W 0 25 0 0
on A S
on A W
on B S
on B E
on C E
on C N
on D N
on D W
angle S E 1/0
angle E N 1/0
angle N W 1/0
distance A B 40
distance B C 25
end
> 0
verdict well
elements 8
constraints 13
steps 6
leaf c1 : on A S
leaf c2 : on A W
leaf c3 : on B S
leaf c4 : on B E
leaf c5 : on C E
leaf c6 : on C N
leaf c7 : on D N
leaf c8 : on D W
leaf c9 : angle S E 1/0
leaf c10 : angle E N 1/0
leaf c11 : angle N W 1/0
leaf c12 : distance A B 40
leaf c13 : distance B C 25
step s1 joins c9 c4 c3 at E B S keeps c3 none
step s2 joins c10 c6 c5 at N C E keeps c5 none
step s3 joins c11 c8 c7 at W D N keeps c7 none
step s4 joins s1 c12 c1 at B A S keeps s1 advance +
step s5 joins s4 s2 c13 at E C B keeps s4 advance +
step s6 joins s5 s3 c2 at N W A keeps s5 none
";

/// Sketches whose constraints weigh just what is due for all elements together, but not for each part: two whose parts
/// no triangle joins, and one with a part that is over, from which a point hangs by one distance. So they are refused
/// behind the run of merges and not before it, by each command that plans.
pub const REFUSED_BEHIND_THE_RUN: &str = "
$ plan
sketch 1
point A 0 0
point B 1 1
point C 2 4
point D 3 9
point E 4 16
point F 5 25
distance A D 1
distance A E 1
distance A F 1
distance B D 1
distance B E 1
distance B F 1
distance C D 1
distance C E 1
distance C F 1
end
> 6
verdict open
elements 6
constraints 9
parts 9
part 1 sound elements 2 held 1 due 1 : A D
part 2 sound elements 2 held 1 due 1 : A E
part 3 sound elements 2 held 1 due 1 : A F
part 4 sound elements 2 held 1 due 1 : B D
part 5 sound elements 2 held 1 due 1 : B E
part 6 sound elements 2 held 1 due 1 : B F
part 7 sound elements 2 held 1 due 1 : C D
part 8 sound elements 2 held 1 due 1 : C E
part 9 sound elements 2 held 1 due 1 : C F
$ plan order=last
sketch 1
point A 0 0
point B 4 0
point C 4 3
point D 0 3
point E -6 8
distance A B 4
distance A C 5
distance A D 3
distance B C 3
distance B D 5
distance C D 4
distance A E 10
end
> 6
verdict over
elements 5
constraints 7
parts 2
part 1 over elements 4 held 6 due 5 : A B C D
part 2 sound elements 2 held 1 due 1 : A E
$ solve
sketch 1
point A 0 0
point B 1 1
point C 2 4
point D 3 9
point E 4 16
point F 5 25
distance A B 1
distance A C 1
distance B C 1
distance D E 1
distance D F 1
distance E F 1
distance A D 1
distance B E 1
distance C F 1
end
> 6
verdict open
elements 6
constraints 9
parts 5
part 1 sound elements 3 held 3 due 3 : A B C
part 2 sound elements 2 held 1 due 1 : A D
part 3 sound elements 2 held 1 due 1 : B E
part 4 sound elements 2 held 1 due 1 : C F
part 5 sound elements 3 held 3 due 3 : D E F
$ solve place=points frame=drawn
sketch 1
point A 0 0
point B 4 0
point C 4 3
point D 0 3
point E -6 8
distance A B 4
distance A C 5
distance A D 3
distance B C 3
distance B D 5
distance C D 4
distance A E 10
end
> 6
verdict over
elements 5
constraints 7
parts 2
part 1 over elements 4 held 6 due 5 : A B C D
part 2 sound elements 2 held 1 due 1 : A E
$ dxf bits=16
sketch 1
point A 0 0
point B 1 1
point C 2 4
point D 3 9
point E 4 16
point F 5 25
distance A B 1
distance A C 1
distance B C 1
distance D E 1
distance D F 1
distance E F 1
distance A D 1
distance B E 1
distance C F 1
end
> 6
verdict open
elements 6
constraints 9
parts 5
part 1 sound elements 3 held 3 due 3 : A B C
part 2 sound elements 2 held 1 due 1 : A D
part 3 sound elements 2 held 1 due 1 : B E
part 4 sound elements 2 held 1 due 1 : C F
part 5 sound elements 3 held 3 due 3 : D E F
$ flips
sketch 1
point A 0 0
point B 4 0
point C 4 3
point D 0 3
point E -6 8
distance A B 4
distance A C 5
distance A D 3
distance B C 3
distance B D 5
distance C D 4
distance A E 10
end
flip s1
end
> 6
verdict over
elements 5
constraints 7
parts 2
part 1 over elements 4 held 6 due 5 : A B C D
part 2 sound elements 2 held 1 due 1 : A E
$ flips
sketch 1
point A 0 0
point B 1 1
point C 2 4
point D 3 9
point E 4 16
point F 5 25
distance A D 1
distance A E 1
distance A F 1
distance B D 1
distance B E 1
distance B F 1
distance C D 1
distance C E 1
distance C F 1
end
end
> 6
verdict open
elements 6
constraints 9
parts 9
part 1 sound elements 2 held 1 due 1 : A D
part 2 sound elements 2 held 1 due 1 : A E
part 3 sound elements 2 held 1 due 1 : A F
part 4 sound elements 2 held 1 due 1 : B D
part 5 sound elements 2 held 1 due 1 : B E
part 6 sound elements 2 held 1 due 1 : B F
part 7 sound elements 2 held 1 due 1 : C D
part 8 sound elements 2 held 1 due 1 : C E
part 9 sound elements 2 held 1 due 1 : C F
";
