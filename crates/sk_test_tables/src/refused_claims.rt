//! Claims through the command that are refused.

/// What is refused: the sketch before the claim, the first line that has a code, a line behind the tolerances, and an end
/// without them.
pub const REFUSED_CLAIMS: &str = "
$ verify
sketch 1
point A 7 7
> 1
refused line 3 E16 no-end
$ verify
sketch 1
point A 0 0
point B 4 0
point C 4 3
distance A B 4
distance A C 5
distance B C 3
end
> 1
refused line 9 E16 no-end
$ verify
sketch 1
point A 0 0
point B 4 0
point C 4 3
distance A B 4
distance A C 5
distance B C 3
end
step s1 joins c3 c2 c1 at C A B keeps c1 turn +
point A 0 0
point B 4000000 0
point C 4000000 3000000
> 1
refused line 13 E16 no-end
$ verify
sketch 1
point A 0 0
point B 4 0
point C 4 3
distance A B 4
distance A C 5
distance B C 3
end
point A 0 0
point B 4000000 0

 \t
> 1
refused line 13 E16 no-end
$ verify
sketch 1
point A 0 0
point B 4 0
point C 4 3
distance A B 4
distance A C 5
distance B C 3
end
tolerance 0 0

points
> 1
refused line 11 E17 after-end
$ verify
sketch 1
point A 0 0
point B 4 0
point C 4 3
distance A B 4
distance A C 5
distance B C 3
end
tolerance 0 0
tolerance 0 0
> 1
refused line 10 E17 after-end
$ verify
sketch 1
point A 0 0
point B 4 0
point C 4 3
distance A B 4
distance A C 5
distance B C 3
end
tolerance 0 0
\x7f
> 1
refused line 10 E19 not-ascii
$ verify
sketch 1
point A 0 0
point B 4 0
point C 4 3
distance A B 4
distance A C 5
distance B C 3
end
tolerance 0 0
                                                                                                                                                                                                         
> 1
refused line 10 E15 line-too-long
$ verify
sketch 1
point A 0 0
point B 4 0
point C 4 3
distance A B 4
distance A C 5
distance B C 3
end
point A 0 0
point A x 0
> 1
refused line 10 E8 number
$ verify
sketch 1
point A 0 0
point B 4 0
point C 4 3
distance A B 4
distance A C 5
distance B C 3
end
point A 0 0
point B 0 0
point A 0 0
> 1
refused line 11 E5 name-taken
$ verify
sketch 1
circle H 0 0 5
end
circle H 0 0 5
circle H 0 0 5
> 1
refused line 5 E5 name-taken
$ verify
sketch 1
line L 0 0 1 0
end
line L 0 1 0
line L 0 1 0
> 1
refused line 5 E5 name-taken
$ verify
sketch 2
point A 7 7
end # of it
# claimed
> 1
refused line 4 E2 word
$ verify
sketch 2
point A 7 7
end
tolerance 0 0 # exact
> 1
refused line 4 E3 shape
$ verify
sketch 1
point A 0 0
distance A B 3
end
end
> 1
refused line 3 E6 unknown
$ verify
> 1
refused line 0 E18 empty
";
