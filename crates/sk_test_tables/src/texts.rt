//! The datum sketch and its plan, edits of a list, a text in pieces, and numbers of millimetres.

/// The constraints of the datum sketch make one graph, which is one plan of one step.
pub const TEXTS: &str = "
$ datum
> sketch 1
line X 0 0 1000 0
line Y 0 0 0 1000
point P1 18 32
angle X Y 1/0
distance P1 X 32
distance P1 Y 18
end
steps 1
$ list
> ConId(1)
ConId(2)
ConId(3)
ConId(1)
ConId(3)
ConId(5)
ConId(2)
$ pieces
> sketch 1
$ numbers
2.50
-1
-0.000
0001000
1000000
1000000.001
12345678
0.0001
.5
5.
+1
--1
-

> 2.50 Some(Um(2500))
-1 Some(Um(-1000))
-0.000 Some(Um(0))
0001000 Some(Um(1000000))
1000000 Some(Um(1000000000))
1000000.001 None
12345678 None
0.0001 None
.5 None
5. None
+1 None
--1 None
- None
 None
";
