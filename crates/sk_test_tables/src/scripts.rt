//! Sessions by steps, of which a fixed recurrence takes some.

/// A drawing that lacks one constraint.
pub const START: &str = "\
point A 0 0
point B 40 0
point C 20 30
point D 60 30
line L 0 -5 40 -5
line M 50 0 50 40
circle H 10 10 5
distance A B 40
distance A C 36
distance B C 36
distance B D 36
distance C D 40
distance A L 5
distance B L 5
angle L M 1/0
distance D M 10
tangent H L
";

/// Steps of commands after which no number was given back or taken away.
pub const STEADY: &str = "\
distance H M 40
distance C H 20, check, undo
distance H A 20, plan, undo, solve
on A M, undo
distance A D 67, check, undo
outside H H
drop 1, check, undo
drop 2, undo, check
drop 4, check, undo, check
drop 8, plan, undo
drop 10, undo, plan
set 1 39
set 3 35, undo
set 5 38
set 8 5/1, solve
check";

/// Steps after which numbers may be missing. A written sketch counts anew. One of them takes all away that names D
/// at the start, erases D and has another D instead, until it takes all of this back.
pub const LOOSE: &str = "\
distance H M 40
distance A C 36, drop 2
distance C D 40, drop 5, check
angle L M 1/0, drop 8
tangent H L, drop 10
distance D M 10, drop 9
distance A D 67
drop 5, check
drop 7, check
drop 11
drop 12
drop 13
drop 14, drop 15
drop 4, drop 5, drop 9, erase D, check, undo, check, erase D, point D 60 30, undo, undo, undo, undo, undo
undo, check
check";
