//! The merges that closing and a finished board answer. Elements and constraints are numbered from 1 in order of their lines.

/// Two triangles with the side B C in common: the triangle A B C as the first step, and then D; or the triangle B C D as the
/// first step, and then A. The first choice and the last one; a choice by strides is the first at the first call. Of three
/// distances between the same points the first two merge, and then their step with the third. The offered merge comes first,
/// and then the picked one; an offer of a merged cluster is stale.
pub const MERGES: &str = "
$ merges first
sketch 1
point A 0 0
point B 1 0
point C 0 1
point D 1 1
distance A B 1
distance A C 1
distance B C 1.4
distance B D 1
distance C D 1
end
> Taken { step: Step(1), merge: Three(Con(3), Con(2), Con(1)), shared: Shared { a: Elem(3), b: Elem(1), c: Some(Elem(2)) } }
Taken { step: Step(2), merge: Three(Step(1), Con(5), Con(4)), shared: Shared { a: Elem(3), b: Elem(4), c: Some(Elem(2)) } }
$ merges last
sketch 1
point A 0 0
point B 1 0
point C 0 1
point D 1 1
distance A B 1
distance A C 1
distance B C 1.4
distance B D 1
distance C D 1
end
> Taken { step: Step(1), merge: Three(Con(5), Con(4), Con(3)), shared: Shared { a: Elem(4), b: Elem(2), c: Some(Elem(3)) } }
Taken { step: Step(2), merge: Three(Step(1), Con(2), Con(1)), shared: Shared { a: Elem(3), b: Elem(1), c: Some(Elem(2)) } }
$ merges 7
sketch 1
point A 0 0
point B 1 0
point C 0 1
point D 1 1
distance A B 1
distance A C 1
distance B C 1.4
distance B D 1
distance C D 1
end
> Taken { step: Step(1), merge: Three(Con(3), Con(2), Con(1)), shared: Shared { a: Elem(3), b: Elem(1), c: Some(Elem(2)) } }
Taken { step: Step(2), merge: Three(Step(1), Con(5), Con(4)), shared: Shared { a: Elem(3), b: Elem(4), c: Some(Elem(2)) } }
$ merges last
sketch 1
point A 0 0
point B 1 0
distance A B 1
distance A B 1
distance A B 1
end
> Taken { step: Step(1), merge: Two(Con(2), Con(1)), shared: Shared { a: Elem(1), b: Elem(2), c: None } }
Taken { step: Step(2), merge: Two(Step(1), Con(3)), shared: Shared { a: Elem(1), b: Elem(2), c: None } }
$ board
sketch 1
point A 0 0
point B 1 0
point C 0 1
point D 1 1
distance A B 1
distance A C 1
distance B C 1.4
distance B D 1
distance C D 1
end
> Taken(Step(1))
Stale(Con(5))
Taken { step: Step(1), merge: Three(Con(5), Con(4), Con(3)), shared: Shared { a: Elem(4), b: Elem(2), c: Some(Elem(3)) } }
Taken { step: Step(2), merge: Three(Step(1), Con(2), Con(1)), shared: Shared { a: Elem(3), b: Elem(1), c: Some(Elem(2)) } }
";
