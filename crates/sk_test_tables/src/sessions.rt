//! Sessions with their replies.

/// Edits and their refusals, what a drop and an undo leave, and the replies to `check`, `plan`, `solve` and `write` on the sketch as
/// it stands.
pub const SESSIONS: &str = "
$ session
point A 0 0
point B 4 0
point C 4 3
point D 0 3
distance A B 4
distance A C 5
distance A D 3
distance B C 3
distance B D 5
distance C D 4
check
drop 6
check
undo
check
end
> 0
ok A
ok B
ok C
ok D
ok c1
ok c2
ok c3
ok c4
ok c5
ok c6
verdict over
elements 4
constraints 6
parts 1
part 1 over elements 4 held 6 due 5 : A B C D
ok
verdict well
elements 4
constraints 5
parts 1
part 1 sound elements 4 held 5 due 5 : A B C D
ok
verdict over
elements 4
constraints 6
parts 1
part 1 over elements 4 held 6 due 5 : A B C D
$ session
undo
check
point A 0 0
point B 1 0
distance A B 2
erase A
drop 9
set 1 0
set 1 3
write
plan
solve
end
> 0
refused S3 nothing-to-undo
refused E18 empty
ok A
ok B
ok c1
refused S2 in-use
refused S1 no-such-number
refused E9 zero
ok
sketch 1
point A 0 0
point B 1 0
distance A B 3
end
verdict well
elements 2
constraints 1
steps 0
leaf c1 : distance A B 3
verdict well
steps 0
bits 38
point A 0 0
point B 3000000 0
length tolerance 0 nm at c1
angle tolerance 0 ppb at none
$ session
point A 0 0
line L 0 0 1 0
on A L
set 1 2
drop 1
drop 1
erase B
foo
end
> 0
ok A
ok L
ok c1
refused S4 no-value
ok
refused S1 no-such-number
refused E6 unknown
refused E2 word
$ session
point A 0 0
point B 1 0
point C 0 1
point D 1 1
point E 2 0
distance A B 1
distance A C 1
distance B C 1
distance A D 1
distance A E 1
distance D E 1
drop 1
check
undo
check
end
> 0
ok A
ok B
ok C
ok D
ok E
ok c1
ok c2
ok c3
ok c4
ok c5
ok c6
ok
verdict open
elements 5
constraints 5
parts 3
part 1 sound elements 2 held 1 due 1 : A C
part 2 sound elements 3 held 3 due 3 : A D E
part 3 sound elements 2 held 1 due 1 : B C
ok
verdict open
elements 5
constraints 6
parts 2
part 1 sound elements 3 held 3 due 3 : A B C
part 2 sound elements 3 held 3 due 3 : A D E
$ session
point A 0 0
line L 0 0 1 0
on A L
set 1 2
drop 1
drop 1
erase B
foo
drop 02
erase 1
check it

end
> 0
ok A
ok L
ok c1
refused S4 no-value
ok
refused S1 no-such-number
refused E6 unknown
refused E2 word
refused E8 number
refused E4 name
refused E3 shape
$ session
> 0
$ session
undo
point A 0 0
point B 4 0
line L 0 0 10 0
distance A B 4
on A L
set 1 5
set 2 5
set 3 5
drop 2
erase L
erase B
undo
undo
drop 2
on B L
on A L
check
plan
solve
write
end
> 0
refused S3 nothing-to-undo
ok A
ok B
ok L
ok c1
ok c2
ok
refused S4 no-value
refused S1 no-such-number
ok
ok
refused S2 in-use
ok
ok
ok
ok c3
ok c4
verdict well
elements 3
constraints 3
parts 1
part 1 sound elements 3 held 3 due 3 : A B L
verdict well
elements 3
constraints 3
steps 1
leaf c1 : distance A B 5
leaf c3 : on B L
leaf c4 : on A L
step s1 joins c4 c3 c1 at L B A keeps c1 advance +
verdict well
steps 1
bits 38
point A 0 0
point B 5000000 0
line L 0 1000000000 0
length tolerance 0 nm at c1
angle tolerance 0 ppb at line L
sketch 1
point A 0 0
point B 4 0
line L 0 0 10 0
distance A B 5
on B L
on A L
end
$ session
point A 0 0
point B 4 0
line L 0 0 10 0
on B L
erase A
on A L
point A 1 2
distance B A 4
check
write
undo
undo
undo
point A 5 5
distance A B 4
write
end
> 0
ok A
ok B
ok L
ok c1
ok
refused E6 unknown
ok A
ok c2
verdict open
elements 3
constraints 2
parts 2
part 1 sound elements 2 held 1 due 1 : B L
part 2 sound elements 2 held 1 due 1 : B A
sketch 1
point B 4 0
line L 0 0 10 0
point A 1 2
on B L
distance B A 4
end
ok
ok
ok
refused E5 name-taken
ok c2
sketch 1
point A 0 0
point B 4 0
line L 0 0 10 0
on B L
distance A B 4
end
$ session
point A 0 0
line L 0 0 1 0
circle A 1 1 1
tangent A L
angle L A 1/0
on L A
point \x01 0 0
point B 1                                                                                                                                                                                               0
point B 1                                                                                                                                                                                              0
write
> 0
ok A
ok L
refused E5 name-taken
refused E7 kind
refused E7 kind
refused E7 kind
refused E19 not-ascii
refused E15 line-too-long
ok B
sketch 1
point A 0 0
line L 0 0 1 0
point B 1 0
end
$ session within=1 bits=16
point A 0 0
point B 1 0
distance A B 0.003
solve
> 0
ok A
ok B
ok c1
fault c1 tolerance 2 nm limit 1
";

/// Two triangles that share a point: one of them loses a side, is checked, and gets it back.
pub const HINGED: &str = "\
point A 0 0
point B 1 0
point C 0 1
point D 1 1
point E 2 0
distance A B 1
distance A C 1
distance B C 1
distance A D 1
distance A E 1
distance D E 1
drop 1
check
undo
check";
