//! The text's second version: blocks and comments.

/// Comments are passed over. Version 1 has no block, and no text a third version. A block needs two names, and places
/// that differ. In a session blocks and comments stand without a header.
pub const VERSIONS: &str = "
$ solve
sketch 2
# part
point A 0 0 # origin
point B 1 0
point C 0 1
block A 0 0 B 4 0 C 4 3
end
> 0
verdict well
steps 0
bits 38
point A 0 0
point B 4000000 0
point C 4000000 3000000
length tolerance 0 nm at c1
angle tolerance 0 ppb at none
$ plan
sketch 2
# part
point A 0 0 # origin
point B 1 0
point C 0 1
block A 0 0 B 4 0 C 4 3
end
> 0
verdict well
elements 3
constraints 1
steps 0
leaf c1 : block A 0 0 B 4 0 C 4 3
$ check
sketch 1
point A 0 0
point B 1 0
block A 0 0 B 1 0
end
> 1
refused line 4 E2 word
$ check
sketch 2
point A 0 0
point B 1 0
block A 0 0 B 0 0
end
> 1
refused line 4 E9 zero
$ check
sketch 2
point A 0 0
point B 1 0
block A 0 0
end
> 1
refused line 4 E3 shape
$ check
sketch 2
end
> 1
refused line 2 E18 empty
$ check
sketch 3
end
> 1
refused line 1 E1 header
$ session
point A 0 0
point B 1 0
block A 0 0 B 3 0
set 1 4
check
end
> 0
ok A
ok B
ok c1
refused S4 no-value
verdict well
elements 2
constraints 1
parts 1
part 1 sound elements 2 held 1 due 1 : A B
";

/// A comment ends with its line, may stand up to the sketch's end and in blank lines behind it, and has no say in front of
/// the header, on its line, in version 1 or among offers. Each command of a session passes over one.
pub const COMMENTS: &str = "
$ check
sketch 2
point A 0 0
end# of it
  # nothing
> 0
verdict well
elements 1
constraints 0
parts 1
part 1 sound elements 1 held 0 due 0 : A
$ check
# part
sketch 2
> 1
refused line 1 E1 header
$ check
sketch 2 # part
> 1
refused line 1 E1 header
$ check
sketch 1
# part
> 1
refused line 2 E2 word
$ check
sketch 2
circle C 0 0 # 5
> 1
refused line 2 E12 variable-radius
$ offers
sketch 2
point A 0 0
end # of it
offer 1 c1 c2 # x
end
> 1
refused line 4 E3 shape
$ migrate
sketch 2
# part

point A 0 0
point A 0 0
end
> 1
refused line 5 E5 name-taken
$ session
point A 0 0 # origin
point B 1 0
# a bar
block A 0 0 B 3 0
set 1 4 # no length
write # it
check # it
end # of it
> 0
ok A
ok B
ok c1
refused S4 no-value
sketch 2
point A 0 0
point B 1 0
block A 0 0 B 3 0
end
verdict well
elements 2
constraints 1
parts 1
part 1 sound elements 2 held 1 due 1 : A B
";

/// The codes of a block's line in their order: the words of each pin, names, kinds, numbers, places, and the same element
/// twice. A line's bytes are counted and looked at with its comment.
pub const REFUSED: &str = "
$ check
sketch 2
point A 0 0
point B 1 0
line L 0 0 1 0
block
> 1
refused line 5 E3 shape
$ check
sketch 2
point A 0 0
point B 1 0
line L 0 0 1 0
block A 0 0 B 1
> 1
refused line 5 E3 shape
$ check
sketch 2
point A 0 0
point B 1 0
line L 0 0 1 0
block A 0 0 B 1 0 3
> 1
refused line 5 E3 shape
$ check
sketch 2
point A 0 0
point B 1 0
line L 0 0 1 0
block A 0 0 B 1 0 A 0 0 B 1 0 A 0 0 B 1 0 A 0 0 B 1 0 A 0 0 B 1 0 A 0 0 B 1 0 A 0 0 B 1 0 A 0 0 B 1 0 A 2 0
> 1
refused line 5 E3 shape
$ check
sketch 2
point A 0 0
point B 1 0
line L 0 0 1 0
block A 0 0 1B 1 0
> 1
refused line 5 E4 name
$ check
sketch 2
point A 0 0
point B 1 0
line L 0 0 1 0
block C 0 0 1B 1 0
> 1
refused line 5 E4 name
$ check
sketch 2
point A 0 0
point B 1 0
line L 0 0 1 0
block A 0 0 C 1 0
> 1
refused line 5 E6 unknown
$ check
sketch 2
point A 0 0
point B 1 0
line L 0 0 1 0
block C 0 0 L 1 0
> 1
refused line 5 E6 unknown
$ check
sketch 2
point A 0 0
point B 1 0
line L 0 0 1 0
block A 0 0 L 1 0
> 1
refused line 5 E7 kind
$ check
sketch 2
point A 0 0
point B 1 0
line L 0 0 1 0
block A 0 0 L x 0
> 1
refused line 5 E7 kind
$ check
sketch 2
point A 0 0
point B 1 0
line L 0 0 1 0
block A 0 0 B x 0
> 1
refused line 5 E8 number
$ check
sketch 2
point A 0 0
point B 1 0
line L 0 0 1 0
block A 0 0 B 1000001 0
> 1
refused line 5 E8 number
$ check
sketch 2
point A 0 0
point B 1 0
line L 0 0 1 0
block A x 0 A x 0
> 1
refused line 5 E8 number
$ check
sketch 2
point A 0 0
point B 1 0
line L 0 0 1 0
block A 0 0 B -0 0.000
> 1
refused line 5 E9 zero
$ check
sketch 2
point A 0 0
point B 1 0
line L 0 0 1 0
block A 0 0 A 0 0
> 1
refused line 5 E9 zero
$ check
sketch 2
point A 0 0
point B 1 0
line L 0 0 1 0
block A 0 0 A 1 0
> 1
refused line 5 E10 same
$ check
sketch 2
point A 0 0
point B 1 0
line L 0 0 1 0
block A 0 0 B 1 0 A 2 0 # once more
> 1
refused line 5 E10 same
$ check
sketch 2
point A 0 0
point B 1 0
line L 0 0 1 0
block A 0 0 B # 1 0
> 1
refused line 5 E3 shape
$ check
sketch 2
point A 0 0 #xxxxxxxxxxxxxxxxxxxxxxxxxxxxxxxxxxxxxxxxxxxxxxxxxxxxxxxxxxxxxxxxxxxxxxxxxxxxxxxxxxxxxxxxxxxxxxxxxxxxxxxxxxxxxxxxxxxxxxxxxxxxxxxxxxxxxxxxxxxxxxxxxxxxxxxxxxxxxxxxxxxxxxxxxxxxxxxxxxxxxxxxxxx
end
> 0
verdict well
elements 1
constraints 0
parts 1
part 1 sound elements 1 held 0 due 0 : A
$ check
sketch 2
point A 0 0 #xxxxxxxxxxxxxxxxxxxxxxxxxxxxxxxxxxxxxxxxxxxxxxxxxxxxxxxxxxxxxxxxxxxxxxxxxxxxxxxxxxxxxxxxxxxxxxxxxxxxxxxxxxxxxxxxxxxxxxxxxxxxxxxxxxxxxxxxxxxxxxxxxxxxxxxxxxxxxxxxxxxxxxxxxxxxxxxxxxxxxxxxxxxx
> 1
refused line 2 E15 line-too-long
$ check
sketch 2
point A 0 0 # \x7f
> 1
refused line 2 E19 not-ascii
$ check
sketch 2
point A 0 0
end # of it
# and so
end
> 1
refused line 5 E17 after-end
";

/// A sketch of either version is written anew in the second.
pub const MIGRATED: &str = "
$ migrate
sketch 1
point A 0 0
point B 4 0
point C 4 3
distance A B 4
distance A C 5
distance B C 3
end
> 0
sketch 2
point A 0 0
point B 4 0
point C 4 3
distance A B 4
distance A C 5
distance B C 3
end
$ migrate
sketch 2
# part
point A 0 0 # origin
point B 1 0
point C 0 1
block A 0 0 B 4 0 C 4 3
end
> 0
sketch 2
point A 0 0
point B 1 0
point C 0 1
block A 0 0 B 4 0 C 4 3
end
";
