//! Drawings whose elements lie at places that were made by hand: their tolerances, what is beyond a limit, and turned signs.
//!
//! A row has a sketch, `at`, and a place for each of its elements.

/// Triangles, one of them turned over and one that is flat, and a length beyond a limit.
pub const POINTS: &str = "
$ judged 1000
sketch 1
point A 0 0
point B 4 0
point C 4 3
distance A B 4
distance A C 5
distance B C 3
end
at
point 0 0
point 4000000 0
point 4000000 3000000
> verdict well
steps 1
bits 38
point A 0 0
point B 4000000 0
point C 4000000 3000000
length tolerance 0 nm at c1
angle tolerance 0 ppb at none
$ judged 1000
sketch 1
point A 0 0
point B 10 0
point C 5 8
distance A B 10
distance A C 10
distance B C 10
end
at
point 0 0
point 10000000 0
point 5000000 8660254
> verdict well
steps 1
bits 38
point A 0 0
point B 10000000 0
point C 5000000 8660254
length tolerance 1 nm at c2
angle tolerance 0 ppb at none
$ judged 1000
sketch 1
point A 0 0
point B 10 0
point C 5 8
distance A B 10
distance A C 10
distance B C 10
end
at
point 0 0
point 10000000 0
point 5000000 -8660254
> verdict well
steps 1
bits 38
point A 0 0
point B 10000000 0
point C 5000000 -8660254
length tolerance 1 nm at c2
angle tolerance 0 ppb at none
fault s1 turned drawn + placed -1
$ judged 3000000
sketch 1
point A 0 0
point B 4 0
point C 4 3
distance A B 4
distance A C 5
distance B C 3
end
at
point 0 0
point 4000000 0
point 4000000 0
> verdict well
steps 1
bits 38
point A 0 0
point B 4000000 0
point C 4000000 0
length tolerance 3000000 nm at c3
angle tolerance 0 ppb at none
fault s1 turned drawn + placed 0
$ judged 1
sketch 1
point A 0 0
point B 1 0
distance A B 0.003
end
at
point 0 0
point 2998 0
> verdict well
steps 0
bits 38
point A 0 0
point B 2998 0
length tolerance 2 nm at c1
angle tolerance 0 ppb at none
fault c1 tolerance 2 nm limit 1
$ judged 2
sketch 1
point A 0 0
point B 1 0
distance A B 0.003
end
at
point 0 0
point 2998 0
> verdict well
steps 0
bits 38
point A 0 0
point B 2998 0
length tolerance 2 nm at c1
angle tolerance 0 ppb at none
";

/// Drawings with lines, each placed just as it asks.
pub const LINES: &str = "
$ judged 1000
sketch 1
point A 0 0
point B 40 0
point C 40 25
point D 0 25
line S 0 0 40 0
line E 40 0 40 25
line N 40 25 0 25
line W 0 25 0 0
on A S
on A W
on B S
on B E
on C E
on C N
on D N
on D W
angle S E 1/0
angle E N 1/0
angle N W 1/0
distance A B 40
distance B C 25
end
at
point -40000000 0
point 0 0
point 0 25000000
point -40000000 25000000
line 0 1000000000 0
line -1000000000 0 0
line 0 -1000000000 -25000000
line 1000000000 0 -40000000
> verdict well
steps 6
bits 38
point A -40000000 0
point B 0 0
point C 0 25000000
point D -40000000 25000000
line S 0 1000000000 0
line E -1000000000 0 0
line N 0 -1000000000 -25000000
line W 1000000000 0 -40000000
length tolerance 0 nm at c1
angle tolerance 0 ppb at line S
$ judged 1000
sketch 1
line X 0 0 100 0
line Y 0 0 0 80
circle H 30 8 5
angle X Y 1/0
tangent X H
distance H Y 30
end
at
line 0 1000000000 0
line -1000000000 0 0
point 30000000 5000000
> verdict well
steps 1
bits 38
line X 0 1000000000 0
line Y -1000000000 0 0
circle H 30000000 5000000 5000000
length tolerance 0 nm at c2
angle tolerance 0 ppb at line X
$ judged 1000
sketch 1
circle H 0 0 5
circle K 5 0 2
line T 0 -6 10 1.5
distance H K 5
tangent T H
tangent T K
end
at
point 0 0
point 5000000 0
line -600000000 800000000 -5000000
> verdict well
steps 1
bits 38
circle H 0 0 5000000
circle K 5000000 0 2000000
line T -600000000 800000000 -5000000
length tolerance 0 nm at c1
angle tolerance 0 ppb at line T
$ judged 1000
sketch 1
line X 0 0 100 0
line Y 5 0 85 60
point H 5 50
angle X Y 3/4
distance H X 5
distance H Y 4
end
at
line 0 1000000000 0
line -600000000 800000000 -3000000
point 5000000 5000000
> verdict well
steps 1
bits 38
line X 0 1000000000 0
line Y -600000000 800000000 -3000000
point H 5000000 5000000
length tolerance 0 nm at c2
angle tolerance 0 ppb at line X
";

/// A length that is off by 5 and a height by 3; normals that are too long or not at their angle, and what is first beyond a
/// limit.
pub const WORST: &str = "
$ judged 1000
sketch 1
line X 0 0 100 0
line Y 0 0 0 80
circle H 30 8 5
angle X Y 1/0
tangent X H
distance H Y 30
end
at
line 0 1000000000 0
line -1000000000 0 0
point 30000003 4999995
> verdict well
steps 1
bits 38
line X 0 1000000000 0
line Y -1000000000 0 0
circle H 30000003 4999995 5000000
length tolerance 5 nm at c2
angle tolerance 0 ppb at line X
$ judged 1000
sketch 1
line X 0 0 100 0
line Y 0 0 0 80
circle H 30 8 5
angle X Y 1/0
tangent X H
distance H Y 30
end
at
line 0 1000000003 0
line -1000000000 0 0
point 30000000 5000000
> verdict well
steps 1
bits 38
line X 0 1000000003 0
line Y -1000000000 0 0
circle H 30000000 5000000 5000000
length tolerance 1 nm at c2
angle tolerance 7 ppb at line X
$ judged 1000
sketch 1
line X 0 0 100 0
line Y 0 0 0 80
circle H 30 8 5
angle X Y 1/0
tangent X H
distance H Y 30
end
at
line 0 1000000000 0
line -1000000000 5 0
point 30000000 5000000
> verdict well
steps 1
bits 38
line X 0 1000000000 0
line Y -1000000000 5 0
circle H 30000000 5000000 5000000
length tolerance 1 nm at c3
angle tolerance 5 ppb at c1
$ judged 4
sketch 1
line X 0 0 100 0
line Y 0 0 0 80
circle H 30 8 5
angle X Y 1/0
tangent X H
distance H Y 30
end
at
line 0 1000000003 0
line -1000000000 0 0
point 30000003 4999995
> verdict well
steps 1
bits 38
line X 0 1000000003 0
line Y -1000000000 0 0
circle H 30000003 4999995 5000000
length tolerance 5 nm at c2
angle tolerance 7 ppb at line X
fault line X tolerance 7 ppb limit 4
$ judged 7
sketch 1
line X 0 0 100 0
line Y 0 0 0 80
circle H 30 8 5
angle X Y 1/0
tangent X H
distance H Y 30
end
at
line 0 1000000003 0
line -1000000000 0 0
point 30000003 4999995
> verdict well
steps 1
bits 38
line X 0 1000000003 0
line Y -1000000000 0 0
circle H 30000003 4999995 5000000
length tolerance 5 nm at c2
angle tolerance 7 ppb at line X
$ judged 49
sketch 1
line X 0 0 100 0
line Y 5 0 85 60
point H 5 50
angle X Y 3/4
distance H X 5
distance H Y 4
end
at
line 70 1000000000 0
line -600000000 800000000 -3000000
point 5000000 5000000
> verdict well
steps 1
bits 38
line X 70 1000000000 0
line Y -600000000 800000000 -3000000
point H 5000000 5000000
length tolerance 1 nm at c2
angle tolerance 50 ppb at c1
fault c1 tolerance 50 ppb limit 49
";

/// A line that runs the other way, so that the right angles at it turn to the other side, before any step; a rectangle
/// that is turned over; and a line that runs back.
pub const TURNED: &str = "
$ judged 1000
sketch 1
point A 0 0
point B 40 0
point C 40 25
point D 0 25
line S 0 0 40 0
line E 40 0 40 25
line N 40 25 0 25
line W 0 25 0 0
on A S
on A W
on B S
on B E
on C E
on C N
on D N
on D W
angle S E 1/0
angle E N 1/0
angle N W 1/0
distance A B 40
distance B C 25
end
at
point -40000000 0
point 0 0
point 0 25000000
point -40000000 25000000
line 0 1000000000 0
line 1000000000 0 0
line 0 -1000000000 -25000000
line 1000000000 0 -40000000
> verdict well
steps 6
bits 38
point A -40000000 0
point B 0 0
point C 0 25000000
point D -40000000 25000000
line S 0 1000000000 0
line E 1000000000 0 0
line N 0 -1000000000 -25000000
line W 1000000000 0 -40000000
length tolerance 0 nm at c1
angle tolerance 0 ppb at line S
fault c9 turned drawn + placed -1
$ judged 1000
sketch 1
point A 0 0
point B 40 0
point C 40 25
point D 0 25
line S 0 0 40 0
line E 40 0 40 25
line N 40 25 0 25
line W 0 25 0 0
on A S
on A W
on B S
on B E
on C E
on C N
on D N
on D W
angle S E 1/0
angle E N 1/0
angle N W 1/0
distance A B 40
distance B C 25
end
at
point -40000000 0
point 0 0
point 0 -25000000
point -40000000 -25000000
line 0 1000000000 0
line 1000000000 0 0
line 0 -1000000000 25000000
line -1000000000 0 40000000
> verdict well
steps 6
bits 38
point A -40000000 0
point B 0 0
point C 0 -25000000
point D -40000000 -25000000
line S 0 1000000000 0
line E 1000000000 0 0
line N 0 -1000000000 25000000
line W -1000000000 0 40000000
length tolerance 0 nm at c1
angle tolerance 0 ppb at line S
fault c9 turned drawn + placed -1
$ judged 8000000
sketch 1
line X 0 0 100 0
line Y 5 0 85 60
point H 5 50
angle X Y 3/4
distance H X 5
distance H Y 4
end
at
line 0 1000000000 0
line 600000000 -800000000 3000000
point 5000000 5000000
> verdict well
steps 1
bits 38
line X 0 1000000000 0
line Y 600000000 -800000000 3000000
point H 5000000 5000000
length tolerance 8000000 nm at c3
angle tolerance 0 ppb at line X
fault c1 turned drawn + placed -1
";
