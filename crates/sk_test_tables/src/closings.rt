//! The parts in which closing ends, whichever choice is taken, and a merge by hand.

/// Four points with six distances; a pair twice; three points joined with three; a prism; two triangles at a point; three lines
/// with three angles. A block merges as a cluster of all its points: two points; three, with two distances from a fourth; three,
/// with one of their distances; two blocks at a point, without a distance across and with it; two blocks of nine at two points;
/// sixteen points, and two of them. Each lone point is a part, which holds nothing, and one alone is well.
pub const CLOSED: &str = "
$ closed first,last,7,listed,any
sketch 1
point A 0 0
point B 1 0
point C 2 0
point D 3 0
distance A B 1
distance A C 1
distance A D 1
distance B C 1
distance B D 1
distance C D 1
end
> verdict over
elements 4
constraints 6
parts 1
part 1 over elements 4 held 6 due 5 : A B C D
$ closed first,last,7,listed,any
sketch 1
point A 0 0
point B 1 0
distance A B 1
distance B A 1
end
> verdict over
elements 2
constraints 2
parts 1
part 1 over elements 2 held 2 due 1 : A B
$ closed first,last,7,listed,any
sketch 1
point A 0 0
point B 1 0
point C 2 0
point D 3 0
point E 4 0
point F 5 0
distance A D 1
distance A E 1
distance A F 1
distance B D 1
distance B E 1
distance B F 1
distance C D 1
distance C E 1
distance C F 1
end
> verdict open
elements 6
constraints 9
parts 9
part 1 sound elements 2 held 1 due 1 : A D
part 2 sound elements 2 held 1 due 1 : A E
part 3 sound elements 2 held 1 due 1 : A F
part 4 sound elements 2 held 1 due 1 : B D
part 5 sound elements 2 held 1 due 1 : B E
part 6 sound elements 2 held 1 due 1 : B F
part 7 sound elements 2 held 1 due 1 : C D
part 8 sound elements 2 held 1 due 1 : C E
part 9 sound elements 2 held 1 due 1 : C F
$ closed first,last,7,listed,any
sketch 1
point A 0 0
point B 1 0
point C 2 0
point D 3 0
point E 4 0
point F 5 0
distance A B 1
distance A C 1
distance B C 1
distance D E 1
distance D F 1
distance E F 1
distance A D 1
distance B E 1
distance C F 1
end
> verdict open
elements 6
constraints 9
parts 5
part 1 sound elements 3 held 3 due 3 : A B C
part 2 sound elements 2 held 1 due 1 : A D
part 3 sound elements 2 held 1 due 1 : B E
part 4 sound elements 2 held 1 due 1 : C F
part 5 sound elements 3 held 3 due 3 : D E F
$ closed first,last,7,listed,any
sketch 1
point A 0 0
point B 1 0
point C 2 0
point D 3 0
point E 4 0
distance A B 1
distance A C 1
distance B C 1
distance A D 1
distance A E 1
distance D E 1
end
> verdict open
elements 5
constraints 6
parts 2
part 1 sound elements 3 held 3 due 3 : A B C
part 2 sound elements 3 held 3 due 3 : A D E
$ closed first,last,7,listed,any
sketch 1
line A 0 0 1 0
line B 0 0 1 1
line C 0 0 0 1
angle A B 1/1
angle B C 1/1
angle A C 1/1
end
> verdict open
elements 3
constraints 3
parts 3
part 1 sound elements 2 held 1 due 1 : A B
part 2 sound elements 2 held 1 due 1 : A C
part 3 sound elements 2 held 1 due 1 : B C
$ closed first,last,7,listed,any
sketch 2
point A 0 0
point B 1 0
block A 0.001 0 B 0.002 0
end
> verdict well
elements 2
constraints 1
parts 1
part 1 sound elements 2 held 1 due 1 : A B
$ closed first,last,7,listed,any
sketch 2
point A 0 0
point B 1 0
point C 2 0
point D 3 0
distance A D 1
distance C D 1
block A 0.001 0 B 0.002 0 C 0.003 0
end
> verdict well
elements 4
constraints 3
parts 1
part 1 sound elements 4 held 5 due 5 : A B C D
$ closed first,last,7,listed,any
sketch 2
point A 0 0
point B 1 0
point C 2 0
distance A B 1
block A 0.001 0 B 0.002 0 C 0.003 0
end
> verdict over
elements 3
constraints 2
parts 1
part 1 over elements 3 held 4 due 3 : A B C
$ closed first,last,7,listed,any
sketch 2
point A 0 0
point B 1 0
point C 2 0
point D 3 0
point E 4 0
block A 0.001 0 B 0.002 0 C 0.003 0
block C 0.003 0 D 0.004 0 E 0.005 0
end
> verdict open
elements 5
constraints 2
parts 2
part 1 sound elements 3 held 3 due 3 : A B C
part 2 sound elements 3 held 3 due 3 : C D E
$ closed first,last,7,listed,any
sketch 2
point A 0 0
point B 1 0
point C 2 0
point D 3 0
point E 4 0
distance E A 1
block A 0.001 0 B 0.002 0 C 0.003 0
block C 0.003 0 D 0.004 0 E 0.005 0
end
> verdict well
elements 5
constraints 3
parts 1
part 1 sound elements 5 held 7 due 7 : A B C D E
$ closed first,last,7,listed,any
sketch 2
point A 0 0
point B 1 0
point C 2 0
point D 3 0
point E 4 0
point F 5 0
point G 6 0
point H 7 0
point I 8 0
point J 9 0
point K 10 0
point L 11 0
point M 12 0
point N 13 0
point O 14 0
point P 15 0
block A 0.001 0 B 0.002 0 C 0.003 0 D 0.004 0 E 0.005 0 F 0.006 0 G 0.007 0 H 0.008 0 I 0.009 0
block H 0.008 0 I 0.009 0 J 0.01 0 K 0.011 0 L 0.012 0 M 0.013 0 N 0.014 0 O 0.015 0 P 0.016 0
end
> verdict over
elements 16
constraints 2
parts 1
part 1 over elements 16 held 30 due 29 : A B C D E F G H I J K L M N O P
$ closed first,last,7,listed,any
sketch 2
point A 0 0
point B 1 0
point C 2 0
point D 3 0
point E 4 0
point F 5 0
point G 6 0
point H 7 0
point I 8 0
point J 9 0
point K 10 0
point L 11 0
point M 12 0
point N 13 0
point O 14 0
point P 15 0
block A 0.001 0 B 0.002 0 C 0.003 0 D 0.004 0 E 0.005 0 F 0.006 0 G 0.007 0 H 0.008 0 I 0.009 0 J 0.01 0 K 0.011 0 L 0.012 0 M 0.013 0 N 0.014 0 O 0.015 0 P 0.016 0
block G 0.007 0 H 0.008 0
end
> verdict over
elements 16
constraints 2
parts 1
part 1 over elements 16 held 30 due 29 : A B C D E F G H I J K L M N O P
$ closed first,last,7,listed,any
sketch 1
point A 0 0
end
> verdict well
elements 1
constraints 0
parts 1
part 1 sound elements 1 held 0 due 0 : A
$ closed first,last,7,listed,any
sketch 1
point A 0 0
point B 1 0
end
> verdict open
elements 2
constraints 0
parts 2
part 1 sound elements 1 held 0 due 0 : A
part 2 sound elements 1 held 0 due 0 : B
";

/// Of two triangles with a common side the first merges; a merge that names a constraint of it then does not. How many
/// clusters there are, both answers, how many there are then, the number of the next step, the first, the third and the fourth
/// name, whether the step and a constraint are live, and what a constraint has in common with the step.
pub const JOINED: &str = "
$ joined
sketch 1
point A 0 0
point B 1 0
point C 2 0
point D 3 0
distance A B 1
distance A C 1
distance B C 1
distance B D 1
distance C D 1
end
> 5
Some((Shared { a: Elem(3), b: Elem(1), c: Some(Elem(2)) }, Step(1)))
None
3
2
Some(Con(4))
Some(Step(1))
None
true
false
Some(Overlap { count: 1, first: Some(Elem(2)), second: None })
";
