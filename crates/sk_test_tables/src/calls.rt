//! Graphs and texts of drawings that are read.

/// The circles of the belt are their centres in its graph.
pub const CALLS: &str = "
$ edges
sketch 1
circle H 0 0 5
circle K 5 0 2
line T 0 -6 10 1.5
distance H K 5
tangent T H
tangent T K
end
> Edge { id: ConId(1), u: Elem(1), v: Elem(2), measure: PointPoint(Um(5000)) }
Edge { id: ConId(2), u: Elem(1), v: Elem(3), measure: PointLine(Um(5000), Plus) }
Edge { id: ConId(3), u: Elem(2), v: Elem(3), measure: PointLine(Um(2000), Plus) }
$ written
sketch 1
point A 0 0
point  B 01.0\t0

distance A B 2.50
end
> sketch 1
point A 0 0
point B 1 0
distance A B 2.5
end
ConId(1)
distance A B 2.5
$ written
sketch 2
point A 0 0
point B 4 0
point C 4 3
point D 0 3
point E 0 6
block A 0 0 B 4 0 C 4 3
block C 0 0 D 4 0 E 4 -3
distance A D 3
end
> sketch 2
point A 0 0
point B 4 0
point C 4 3
point D 0 3
point E 0 6
block A 0 0 B 4 0 C 4 3
block C 0 0 D 4 0 E 4 -3
distance A D 3
end
ConId(1)
block A 0 0 B 4 0 C 4 3
ConId(2)
block C 0 0 D 4 0 E 4 -3
ConId(3)
distance A D 3
$ written
sketch 2
point A 0 0
point B 1 1
block A 0 0 B 1 1
end
> sketch 2
point A 0 0
point B 1 1
block A 0 0 B 1 1
end
ConId(1)
block A 0 0 B 1 1
";
