//! Closing by the three rules, by picks and by the command.

/// The first of the drawings below by picks in three orders; by the last pick two triangles that meet in a point, and a
/// drawing with two merges by the angles to pick from, behind one of which a triangle closes.
pub const BY_PICKS: &str = "
$ derived first
sketch 1
line X 0 0 1 0
line Y 0 0 1 1
line Z 0 0 0 1
point P 0 0
angle X Y 1/1
angle Y Z 1/1
on P X
on P Z
end
> clusters 3
cluster 1 : X Y
cluster 2 : X Z P
cluster 3 : Y Z
$ derived last
sketch 1
line X 0 0 1 0
line Y 0 0 1 1
line Z 0 0 0 1
point P 0 0
angle X Y 1/1
angle Y Z 1/1
on P X
on P Z
end
> clusters 3
cluster 1 : X Y
cluster 2 : X Z P
cluster 3 : Y Z
$ derived 7
sketch 1
line X 0 0 1 0
line Y 0 0 1 1
line Z 0 0 0 1
point P 0 0
angle X Y 1/1
angle Y Z 1/1
on P X
on P Z
end
> clusters 3
cluster 1 : X Y
cluster 2 : X Z P
cluster 3 : Y Z
$ derived last
sketch 1
point A 0 0
point B 1 0
point C 0 1
point D 1 1
point E 2 0
distance A B 1
distance A C 1
distance B C 1
distance A D 1
distance A E 1
distance D E 1
end
> clusters 2
cluster 1 : A B C
cluster 2 : A D E
$ derived last
sketch 1
line X 0 0 1 0
line Y 0 0 1 1
line Z 0 0 0 1
point P 0 0
point Q 0 5
angle X Y 1/1
angle Y Z 1/1
on P X
on P Z
on Q X
on Q Z
end
> clusters 3
cluster 1 : X Y
cluster 2 : X Z P Q
cluster 3 : Y Z
";

/// Two angles add up, so a point on the outer lines pins them together, in every order; by the first two rules alone
/// there are four clusters. No point is shared by two clusters with tied lines in two triangles that meet in a point,
/// so there the first two rules decide. A block between two points makes a triangle with a line, and what they make is
/// pinned to a further line by the angles; a block that shares a point with that holds no line, so it stays. Lone points
/// are no clusters, and a text that isn't a sketch is refused. Behind a merge by the angles a triangle may close, and a
/// second merge by them may be left.
pub const DERIVED: &str = "
$ derive
sketch 1
line X 0 0 1 0
line Y 0 0 1 1
line Z 0 0 0 1
point P 0 0
angle X Y 1/1
angle Y Z 1/1
on P X
on P Z
end
> 0
clusters 3
cluster 1 : X Y
cluster 2 : X Z P
cluster 3 : Y Z
$ derive order=first
sketch 1
line X 0 0 1 0
line Y 0 0 1 1
line Z 0 0 0 1
point P 0 0
angle X Y 1/1
angle Y Z 1/1
on P X
on P Z
end
> 0
clusters 3
cluster 1 : X Y
cluster 2 : X Z P
cluster 3 : Y Z
$ derive order=last
sketch 1
line X 0 0 1 0
line Y 0 0 1 1
line Z 0 0 0 1
point P 0 0
angle X Y 1/1
angle Y Z 1/1
on P X
on P Z
end
> 0
clusters 3
cluster 1 : X Y
cluster 2 : X Z P
cluster 3 : Y Z
$ derive order=0
sketch 1
line X 0 0 1 0
line Y 0 0 1 1
line Z 0 0 0 1
point P 0 0
angle X Y 1/1
angle Y Z 1/1
on P X
on P Z
end
> 0
clusters 3
cluster 1 : X Y
cluster 2 : X Z P
cluster 3 : Y Z
$ derive order=1
sketch 1
line X 0 0 1 0
line Y 0 0 1 1
line Z 0 0 0 1
point P 0 0
angle X Y 1/1
angle Y Z 1/1
on P X
on P Z
end
> 0
clusters 3
cluster 1 : X Y
cluster 2 : X Z P
cluster 3 : Y Z
$ derive order=7
sketch 1
line X 0 0 1 0
line Y 0 0 1 1
line Z 0 0 0 1
point P 0 0
angle X Y 1/1
angle Y Z 1/1
on P X
on P Z
end
> 0
clusters 3
cluster 1 : X Y
cluster 2 : X Z P
cluster 3 : Y Z
$ derive order=65535
sketch 1
line X 0 0 1 0
line Y 0 0 1 1
line Z 0 0 0 1
point P 0 0
angle X Y 1/1
angle Y Z 1/1
on P X
on P Z
end
> 0
clusters 3
cluster 1 : X Y
cluster 2 : X Z P
cluster 3 : Y Z
$ check
sketch 1
line X 0 0 1 0
line Y 0 0 1 1
line Z 0 0 0 1
point P 0 0
angle X Y 1/1
angle Y Z 1/1
on P X
on P Z
end
> 0
verdict open
elements 4
constraints 4
parts 4
part 1 sound elements 2 held 1 due 1 : X Y
part 2 sound elements 2 held 1 due 1 : X P
part 3 sound elements 2 held 1 due 1 : Y Z
part 4 sound elements 2 held 1 due 1 : Z P
$ derive
sketch 1
point A 0 0
point B 1 0
point C 0 1
point D 1 1
point E 2 0
distance A B 1
distance A C 1
distance B C 1
distance A D 1
distance A E 1
distance D E 1
end
> 0
clusters 2
cluster 1 : A B C
cluster 2 : A D E
$ derive
sketch 1
line X 0 0 1 0
line Y 0 0 1 1
line Z 0 0 0 1
point P 0 0
point Q 0 5
angle X Y 1/1
angle Y Z 1/1
on P X
on P Z
on Q X
on Q Z
end
> 0
clusters 3
cluster 1 : X Y
cluster 2 : X Z P Q
cluster 3 : Y Z
$ derive order=last
sketch 1
line X 0 0 1 0
line Y 0 0 1 1
line Z 0 0 0 1
line W 0 0 -1 1
point P 0 0
point Q 0 5
angle X Y 1/1
angle Y Z 1/1
angle Z W 1/1
on P X
on P Z
on Q Y
on Q W
end
> 0
clusters 5
cluster 1 : X Y
cluster 2 : X Z P
cluster 3 : Y Z
cluster 4 : Y W Q
cluster 5 : Z W
$ derive
sketch 2
line X 0 0 1 0
line Y 0 0 1 1
line Z 0 0 0 1
point P 0 0
point Q 0 5
point R 4 5
point S 4 8
angle X Y 1/1
angle Y Z 1/1
on P X
on P Z
on Q Z
block P 0 0 Q 0 5
block Q 0 0 R 4 0 S 4 3
end
> 0
clusters 4
cluster 1 : X Y
cluster 2 : X Z P Q
cluster 3 : Y Z
cluster 4 : Q R S
$ derive
sketch 1
point A 0 0
point B 1 0
end
> 0
clusters 0
$ derive
sketch 1
point A 0 0
distance A B 3
end
> 1
refused line 3 E6 unknown
$ derive
> 1
refused line 0 E18 empty
";
