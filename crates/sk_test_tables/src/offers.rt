//! Offered merges, with their answers and refusals.

/// Offers that are taken, stale and idle, and lines of offers that are refused.
pub const OFFERS: &str = "
$ offers
sketch 1
point A 0 0
point B 4 0
point C 4 3
point D 0 3
distance A B 4
distance A C 5
distance B C 3
distance B D 5
distance C D 4
end
offer 1 c3 c2 c1
offer 2 c5 c4 c3
offer 3 c5 c4
end
> 0
offer 1 taken s1
offer 2 stale c3
offer 3 idle
verdict well
elements 4
constraints 5
parts 1
part 1 sound elements 4 held 5 due 5 : A B C D
$ offers
sketch 1
point A 0 0
point B 4 0
point C 4 3
point D 0 3
distance A B 4
distance A C 5
distance B C 3
distance B D 5
distance C D 4
end
offer 0 c3 c2 c1
offer 2 c5 c4 c3
offer 3 c5 c4
end
> 1
refused line 12 E8 number
$ offers
sketch 1
point A 0 0
point B 4 0
point C 4 3
point D 0 3
distance A B 4
distance A C 5
distance B C 3
distance B D 5
distance C D 4
end
offer 1 c3 c3
offer 2 c5 c4 c3
offer 3 c5 c4
end
> 1
refused line 12 E10 same
$ offers
sketch 1
point A 0 0
point B 4 0
point C 4 3
point D 0 3
distance A B 4
distance A C 5
distance B C 3
distance B D 5
distance C D 4
end
offer 1 c3 c2 c1
offer 2 c5 c4 c3
offer 3 c5 c4
> 1
refused line 15 E16 no-end
$ offers
sketch 1
point A 0 0
end
offer 65 c1 c2
end
> 1
refused line 4 E8 number
$ offers
sketch 1
point A 0 0
end
offer 01 c1 c2
end
> 1
refused line 4 E8 number
$ offers
sketch 1
point A 0 0
end
offer 1 c1
end
> 1
refused line 4 E3 shape
$ offers
sketch 1
point A 0 0
end
offer 1 c0 c2
end
> 1
refused line 4 E4 name
$ offers
sketch 1
point A 0 0
end
offer 65 c1 A
end
> 1
refused line 4 E8 number
$ offers
sketch 1
point A 0 0
end
offers 1 c1 c2
end
> 1
refused line 4 E2 word
$ offers
sketch 1
point A 0 0
end
end
offer 1 c1 c2
> 1
refused line 5 E17 after-end
";

/// A triangle with one side twice, without its last line feed.
pub const DOUBLED: &str = "\
sketch 1
point A 0 0
point B 4 0
point C 4 3
distance A B 4
distance A C 5
distance B C 3
distance B A 4
end";

pub const DOUBLED_REPORT: &str = "\
verdict over
elements 3
constraints 4
parts 1
part 1 over elements 3 held 4 due 3 : A B C
";

/// Offers of its clusters, behind the line feed that ends it, and their answers.
pub const OFFERED: &str = "
$
> $
offer 1 c4 c1
> offer 1 taken s1
$
offer 64 c1 c4
> offer 64 taken s1
$
offer 2 c2 c1
> offer 2 idle
$
offer 2 c1 c3
> offer 2 idle
$
offer 2 c3 c2
> offer 2 idle
$
offer 2 c4 c2
> offer 2 idle
$
offer 2 c3 c4
> offer 2 idle
$
offer 3 c1 c2 c3
> offer 3 taken s1
$
offer 3 c3 c4 c2
> offer 3 taken s1
$
offer 3 c4 c2 c1
> offer 3 idle
$
offer 3 c4 c3 c1
> offer 3 idle
$
offer 4 c3 c2 c1
offer 5 c1 c4
offer 6 s1 c4
offer 7 s2 c5
> offer 4 taken s1
offer 5 stale c1
offer 6 taken s2
offer 7 stale c5
$
offer 4 c4 c1
offer 5 s1 c3 c2
offer 6 s1 s2
> offer 4 taken s1
offer 5 taken s2
offer 6 stale s1
";
