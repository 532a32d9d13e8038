//! Plans by an order of merges, where the order decides.

/// Two triangles with the side from A to C in common.
pub const BY_ORDER: &str = "
$ planned first
sketch 1
point A 0 0
point B 4 0
point C 4 3
point D 0 3
distance A B 4
distance A C 5
distance B C 3
distance A D 3
distance C D 4
end
> verdict well
elements 4
constraints 5
steps 2
leaf c1 : distance A B 4
leaf c2 : distance A C 5
leaf c3 : distance B C 3
leaf c4 : distance A D 3
leaf c5 : distance C D 4
step s1 joins c3 c2 c1 at C A B keeps c1 turn +
step s2 joins s1 c5 c4 at C D A keeps s1 turn +
$ planned last
sketch 1
point A 0 0
point B 4 0
point C 4 3
point D 0 3
distance A B 4
distance A C 5
distance B C 3
distance A D 3
distance C D 4
end
> verdict well
elements 4
constraints 5
steps 2
leaf c1 : distance A B 4
leaf c2 : distance A C 5
leaf c3 : distance B C 3
leaf c4 : distance A D 3
leaf c5 : distance C D 4
step s1 joins c5 c4 c2 at D A C keeps c2 turn +
step s2 joins s1 c3 c1 at C B A keeps s1 turn +
";
