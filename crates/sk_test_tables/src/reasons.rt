//! Against which others a constraint is too many.

/// A length again, and another in its place; one that fits the others; a hole that two lengths place against the width; two
/// constraints too many; groups that need the last constraints, and none of those that stand beside; a square with both
/// diagonals; a part that is over in an open sketch; several such parts; and none.
pub const REASONS: &str = "
$ why
sketch 1
point A 0 0
point B 4 0
point C 4 3
point D 0 3
distance A B 4
distance A C 5
distance A D 3
distance B C 3
distance B D 5
distance C B 3
end
> 0
why 1
part 1 over elements 4 held 6 due 5 : A B C D
c6 : distance C B 3 follows from c4
$ why
sketch 1
point A 0 0
point B 4 0
point C 4 3
point D 0 3
distance A B 4
distance A C 5
distance A D 3
distance B C 3
distance B D 5
distance C D 4.5
end
> 0
why 1
part 1 over elements 4 held 6 due 5 : A B C D
c6 : distance C D 4.5 follows from c1 c2 c3 c4 c5
$ why
sketch 1
point A 0 0
point B 4 0
point C 4 3
point D 0 3
distance A B 4
distance A C 5
distance A D 3
distance B C 3
distance B D 5
distance C D 4
end
> 0
why 1
part 1 over elements 4 held 6 due 5 : A B C D
c6 : distance C D 4 follows from c1 c2 c3 c4 c5
$ why
sketch 1
line L 0 0 0 60
line R 100 0 100 60
line B 0 0 100 0
line T 0 60 100 60
point H 20 15
point K 80 15
angle L B 1/0
angle R B 1/0
angle T L 1/0
distance H L 20
distance H B 15
distance K B 15
distance H K 60
distance K R 20
distance H T 45
distance K L 90
end
> 0
why 1
part 1 over elements 6 held 10 due 9 : L R B T H K
c10 : distance K L 90 follows from c1 c4 c5 c6 c7
$ why
sketch 1
point A 0 0
point B 4 0
point C 4 3
point D 0 3
distance A B 4
distance A C 5
distance A D 3
distance B C 3
distance B D 5
distance C D 4
distance A C 5.001
end
> 0
why 1
part 1 over elements 4 held 7 due 5 : A B C D
c6 : distance C D 4 follows from c1 c2 c3 c4 c5
c7 : distance A C 5.001 follows from c2
$ why
sketch 1
point A 0 0
point B 4 0
point C 4 3
point D 0 3
distance C D 4.5
distance B D 5
distance B C 3
distance A D 3
distance A C 5
distance A B 4
end
> 0
why 1
part 1 over elements 4 held 6 due 5 : A B C D
c6 : distance A B 4 follows from c1 c2 c3 c4 c5
$ why
sketch 1
point A 0 0
point B 4 0
point C 4 3
point D 0 3
point E 2 -4
distance A B 4
distance A C 5
distance B C 3
distance A D 3
distance B D 5
distance A E 4.472
distance B E 4.472
distance C E 7.28
end
> 0
why 1
part 1 over elements 5 held 8 due 7 : A B C D E
c8 : distance C E 7.28 follows from c1 c2 c3 c6 c7
$ why
sketch 1
point A 0 0
point B 4 0
point C 4 4
point D 0 4
point M 2 2
distance A B 4
distance B C 4
distance C D 4
distance D A 4
distance A M 2.828
distance B M 2.828
distance C M 2.828
distance D M 2.828
end
> 0
why 1
part 1 over elements 5 held 8 due 7 : A B C D M
c8 : distance D M 2.828 follows from c1 c2 c3 c4 c5 c6 c7
$ why
sketch 1
point A 0 0
point B 4 0
point C 4 3
point P 9 9
line L 0 -5 10 -5
distance P L 14
distance A B 4
distance A C 5
distance B C 3
distance C B 3.5
end
> 0
why 1
part 1 over elements 3 held 4 due 3 : A B C
c5 : distance C B 3.5 follows from c4
$ why
sketch 1
point C 5 5
point D 5 8
point A 0 0
point B 1 0
point P 9 9
point Q 9 13
point R 12 13
distance A B 2
distance C D 3
distance B A 3
distance P Q 4
distance Q R 3
distance P R 5
distance R P 6
distance A B 2.50
end
> 0
why 2
part 2 over elements 2 held 3 due 1 : A B
c3 : distance B A 3 follows from c1
c8 : distance A B 2.5 follows from c1
part 3 over elements 3 held 4 due 3 : P Q R
c7 : distance R P 6 follows from c6
$ why
sketch 1
point A 0 0
point B 4 0
point C 4 3
point D 0 3
distance A B 4
distance A C 5
distance A D 3
distance B C 3
distance B D 5
end
> 0
why 0
";

/// A block that is left out, one that is kept, and one that some of the others tell; angles in a ring; lines alone; what the
/// rules of merging are too weak for; a part that stays over, one of which none may go; and texts that are no sketches.
pub const REASONS_OF_BLOCKS: &str = "
$ why
sketch 2
point A 0 0
point B 4 0
point C 4 3
point D 0 3
distance A B 4
distance A C 5
distance A D 3
distance B C 3
distance B D 5
block A 0 0 C 4 3 D 0 3
end
> 0
why 1
part 1 over elements 4 held 8 due 5 : A B C D
c6 : block A 0 0 C 4 3 D 0 3 follows from c1 c2 c3 c4 c5
$ why
sketch 2
point A 0 0
point B 4 0
point C 4 3
point D 0 3
block A 0 0 B 4 0 C 4 3
distance A D 3
distance C D 4
distance B D 5
distance A C 5
end
> 0
why 1
part 1 over elements 4 held 7 due 5 : A B C D
c4 : distance B D 5 follows from c1 c2 c3
c5 : distance A C 5 follows from c1
$ why
sketch 2
point A 0 0
point B 4 0
point C 4 3
point D 0 3
distance A B 4
distance A C 5
distance A D 3
distance B C 3
distance B D 5
block B 4 0 C 4 3 A 0 0
block A 0 0 B 4 0
end
> 0
why 1
part 1 over elements 4 held 9 due 5 : A B C D
c6 : block B 4 0 C 4 3 A 0 0 follows from c1 c2 c4
c7 : block A 0 0 B 4 0 follows from c1
$ why
sketch 1
line L 0 0 10 0
line M 0 0 10 10
line N 0 0 0 10
line O 0 0 -10 10
point P 3 1
distance P L 1
distance P M 1.414
angle L M 1/1
distance P N 3
angle M N 1/1
distance P O 2.828
angle N O 1/1
angle L O -1/1
end
> 0
why 1
part 1 over elements 5 held 8 due 7 : L M N O P
c8 : angle L O -1/1 follows from c1 c2 c3 c4 c5 c6 c7
$ why
sketch 1
line L 0 0 10 0
line M 0 0 10 10
line N 0 0 0 10
angle L M 1/1
angle M N 1/1
angle L N 1/0
end
> 0
why 0
$ why
sketch 1
point A 0 0
point B 4 0
point C 2 3
point D 0 -6
point E 4 -6
point F 2 -3
distance A B 4
distance A C 3.606
distance B C 3.606
distance D E 4
distance D F 3.606
distance E F 3.606
distance A D 6
distance B E 6
distance A E 7.211
distance C F 6
end
> 0
why 1
part 1 over elements 6 held 10 due 9 : A B C D E F
c10 : distance C F 6 follows from c1 c2 c3 c4 c5 c6 c7 c8 c9
$ why
sketch 2
point A 0 0
point B 4 0
point C 4 3
point D 0 3
block A 0 0 B 4 0 C 4 3
block A 0 0 B 4 0 D 0 3
distance A B 4
distance C D 4
end
> 0
why 1
part 1 over elements 4 held 8 due 5 : A B C D
c3 : distance A B 4 follows from c1
c4 : distance C D 4 follows from c1 c2
$ why
sketch 2
point A 0 0
point B 4 0
point C 4 3
point D 0 3
block A 0 0 B 4 0 C 4 3
block A 0 0 B 4 0 D 0 3
end
> 0
why 1
part 1 over elements 4 held 6 due 5 : A B C D
$ why
sketch 1
point A 0 0
point A 1 0
end
> 1
refused line 3 E5 name-taken
$ why
sketch 1
point A 0 0
end
point B 1 1
> 1
refused line 4 E17 after-end
";
