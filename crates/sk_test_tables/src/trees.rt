//! Plans as trees.

/// The rectangle's plan has six joins, four of them above one another, and each constraint once.
pub const TREES: &str = "
$ leaf
> leaves 7 joins 0 height 0
$ tree
sketch 1
point A 0 0
point B 1 0
distance A B 2.50
end
> leaves 1 joins 0 height 0
$ tree
sketch 1
point A 0 0
point B 40 0
point C 40 25
point D 0 25
line S 0 0 40 0
line E 40 0 40 25
line N 40 25 0 25
line W 0 25 0 0
on A S
on A W
on B S
on B E
on C E
on C N
on D N
on D W
angle S E 1/0
angle E N 1/0
angle N W 1/0
distance A B 40
distance B C 25
end
> leaves 9 4 3 12 1 10 6 5 13 11 8 7 2 joins 6 height 4
$ tree
sketch 1
point A 7 7
end
> ";
