//! Drawings and their reports.

/// Drawings of each verdict; a braced square that is over, also by each kind of `order=`.
pub const REPORTS: &str = "
$ check
sketch 1
point A 0 0
point B 40 0
point C 40 25
point D 0 25
line S 0 0 40 0
line E 40 0 40 25
line N 40 25 0 25
line W 0 25 0 0
on A S
on A W
on B S
on B E
on C E
on C N
on D N
on D W
angle S E 1/0
angle E N 1/0
angle N W 1/0
distance A B 40
distance B C 25
end
> 0
verdict well
elements 8
constraints 13
parts 1
part 1 sound elements 8 held 13 due 13 : A B C D S E N W
$ check
sketch 1
line X 0 0 100 0
line Y 0 0 0 80
circle H 30 8 5
angle X Y 1/0
tangent X H
distance H Y 30
end
> 0
verdict well
elements 3
constraints 3
parts 1
part 1 sound elements 3 held 3 due 3 : X Y H
$ check
sketch 1
point A 7 7
end
> 0
verdict well
elements 1
constraints 0
parts 1
part 1 sound elements 1 held 0 due 0 : A
$ check
sketch 1
point A 0 0
point B 4 0
point C 4 3
point D 0 3
distance A B 4
distance A C 5
distance A D 3
distance B C 3
distance B D 5
distance C D 4
end
> 0
verdict over
elements 4
constraints 6
parts 1
part 1 over elements 4 held 6 due 5 : A B C D
$ check order=first
sketch 1
point A 0 0
point B 4 0
point C 4 3
point D 0 3
distance A B 4
distance A C 5
distance A D 3
distance B C 3
distance B D 5
distance C D 4
end
> 0
verdict over
elements 4
constraints 6
parts 1
part 1 over elements 4 held 6 due 5 : A B C D
$ check order=last
sketch 1
point A 0 0
point B 4 0
point C 4 3
point D 0 3
distance A B 4
distance A C 5
distance A D 3
distance B C 3
distance B D 5
distance C D 4
end
> 0
verdict over
elements 4
constraints 6
parts 1
part 1 over elements 4 held 6 due 5 : A B C D
$ check order=7
sketch 1
point A 0 0
point B 4 0
point C 4 3
point D 0 3
distance A B 4
distance A C 5
distance A D 3
distance B C 3
distance B D 5
distance C D 4
end
> 0
verdict over
elements 4
constraints 6
parts 1
part 1 over elements 4 held 6 due 5 : A B C D
$ check
sketch 1
point A 0 0
point B 1 0
distance A B 2.50
distance B A 3
end
> 0
verdict over
elements 2
constraints 2
parts 1
part 1 over elements 2 held 2 due 1 : A B
$ check
sketch 1
point A 0 0
point B 1 1
point C 2 4
point D 3 9
point E 4 16
point F 5 25
distance A D 1
distance A E 1
distance A F 1
distance B D 1
distance B E 1
distance B F 1
distance C D 1
distance C E 1
distance C F 1
end
> 0
verdict open
elements 6
constraints 9
parts 9
part 1 sound elements 2 held 1 due 1 : A D
part 2 sound elements 2 held 1 due 1 : A E
part 3 sound elements 2 held 1 due 1 : A F
part 4 sound elements 2 held 1 due 1 : B D
part 5 sound elements 2 held 1 due 1 : B E
part 6 sound elements 2 held 1 due 1 : B F
part 7 sound elements 2 held 1 due 1 : C D
part 8 sound elements 2 held 1 due 1 : C E
part 9 sound elements 2 held 1 due 1 : C F
$ check
sketch 1
point A 0 0
point B 1 1
point C 2 4
point D 3 9
point E 4 16
point F 5 25
distance A B 1
distance A C 1
distance B C 1
distance D E 1
distance D F 1
distance E F 1
distance A D 1
distance B E 1
distance C F 1
end
> 0
verdict open
elements 6
constraints 9
parts 5
part 1 sound elements 3 held 3 due 3 : A B C
part 2 sound elements 2 held 1 due 1 : A D
part 3 sound elements 2 held 1 due 1 : B E
part 4 sound elements 2 held 1 due 1 : C F
part 5 sound elements 3 held 3 due 3 : D E F
$ check
sketch 1
point A 0 0
point B 1 0
point C 0 1
point D 1 1
point E 2 0
distance A B 1
distance A C 1
distance B C 1
distance A D 1
distance A E 1
distance D E 1
end
> 0
verdict open
elements 5
constraints 6
parts 2
part 1 sound elements 3 held 3 due 3 : A B C
part 2 sound elements 3 held 3 due 3 : A D E
$ check
sketch 1
line X 0 0 1 0
line Y 0 0 1 1
line Z 0 0 0 1
angle X Y 1/1
angle Y Z 1/1
angle X Z 1/0
end
> 0
verdict open
elements 3
constraints 3
parts 3
part 1 sound elements 2 held 1 due 1 : X Y
part 2 sound elements 2 held 1 due 1 : X Z
part 3 sound elements 2 held 1 due 1 : Y Z
";
