//! Texts that aren't sketches, with the first faulty line and its first code; and lines at the limit of their length.

/// A text for each code of a sketch from E1 to E19, but for E13 and E14, which stand in `limits` of `sk_test_runs`.
pub const REFUSALS: &str = "
$ check
sketch 3
end
> 1
refused line 1 E1 header
$ check
sketch 1
points A 0 0
end
> 1
refused line 2 E2 word
$ check
sketch 1
point A 0
end
> 1
refused line 2 E3 shape
$ check
sketch 1
point 9A 0 0
end
> 1
refused line 2 E4 name
$ check
sketch 1
point A 0 0
point A 1 0
end
> 1
refused line 3 E5 name-taken
$ check
sketch 1
point A 0 0
distance A B 3
end
> 1
refused line 3 E6 unknown
$ check
sketch 1
point A 0 0
line L 0 0 1 0
on L A
end
> 1
refused line 4 E7 kind
$ check
sketch 1
point A 0 0.0001
end
> 1
refused line 2 E8 number
$ check
sketch 1
line L 0 0 1 0
line M 0 0 0 1
angle L M 0/1
end
> 1
refused line 4 E9 zero
$ check
sketch 1
circle H 0 0 5
circle K 1 0 5
inside H K
end
> 1
refused line 4 E9 zero
$ check
sketch 1
point A 0 0
distance A A 3
end
> 1
refused line 3 E10 same
$ check
sketch 1
line L 1 1 1 1
end
> 1
refused line 2 E11 drawn-flat
$ check
sketch 1
circle C 0 0
end
> 1
refused line 2 E12 variable-radius
$ check
sketch 1
xxxxxxxxxxxxxxxxxxxxxxxxxxxxxxxxxxxxxxxxxxxxxxxxxxxxxxxxxxxxxxxxxxxxxxxxxxxxxxxxxxxxxxxxxxxxxxxxxxxxxxxxxxxxxxxxxxxxxxxxxxxxxxxxxxxxxxxxxxxxxxxxxxxxxxxxxxxxxxxxxxxxxxxxxxxxxxxxxxxxxxxxxxxxxxxxxxxxxxxxx
> 1
refused line 2 E15 line-too-long
$ check
sketch 1
\u{c3}
> 1
refused line 2 E19 not-ascii
$ check
sketch 1
point A 0 0
> 1
refused line 3 E16 no-end
$ check
sketch 1
point A 0 0
end
point B 0 0
> 1
refused line 4 E17 after-end
$ check
sketch 1
end
> 1
refused line 2 E18 empty
$ check
> 1
refused line 0 E18 empty
";

/// Lines at the limit of their length, and one byte beyond it.
pub const LONG_LINES: &str = "
$ check
sketch 1
point A 7 7
end                                                                                                                                                                                                     
> 0
verdict well
elements 1
constraints 0
parts 1
part 1 sound elements 1 held 0 due 0 : A
$ check
sketch 1
point A 7 7
end                                                                                                                                                                                                      
> 1
refused line 3 E15 line-too-long
";
