//! By how much a drawing says too much.

/// Four points with all distances, the last of them right and half a millimetre too long; a length twice and two lengths of
/// one pair; a length a million times too long; six points with a length more than is due; two lengths too many within the limit,
/// and beyond it; an angle again, and another; a point on the other side of a line; an angle and a block turned over;
/// two blocks, and lines, that stay over; kept constraints that don't meet, have no place, or pass the limit; a part that is over
/// behind one that isn't; and texts that aren't sketches.
pub const EXCESS: &str = "
$ excess
sketch 1
point A 0 0
point B 4 0
point C 4 3
point D 0 3
distance A B 4
distance A C 5
distance A D 3
distance B C 3
distance B D 5
distance C D 4
end
> 0
excess 1
part 1 over elements 4 held 6 due 5 : A B C D
c6 : distance C D 4 repeat off 0 nm
$ excess
sketch 1
point A 0 0
point B 4 0
point C 4 3
point D 0 3
distance A B 4
distance A C 5
distance A D 3
distance B C 3
distance B D 5
distance C D 4.5
end
> 0
excess 1
part 1 over elements 4 held 6 due 5 : A B C D
c6 : distance C D 4.5 conflict off -500000 nm
$ excess
sketch 1
point A 0 0
point B 4 0
point C 4 3
distance A B 4
distance A C 5
distance B C 3
distance C B 3
end
> 0
excess 1
part 1 over elements 3 held 4 due 3 : A B C
c4 : distance C B 3 repeat off 0 nm
$ excess
sketch 1
point A 0 0
point B 1 0
distance A B 2.5
distance B A 3
end
> 0
excess 1
part 1 over elements 2 held 2 due 1 : A B
c2 : distance B A 3 conflict off -500000 nm
$ excess
sketch 1
point A 0 0
point B 1 0
distance A B 0.001
distance B A 1000000
end
> 0
excess 1
part 1 over elements 2 held 2 due 1 : A B
c2 : distance B A 1000000 conflict off -999999999000 nm
$ excess
sketch 1
point A 0 0
point B 4 0
point C 2 9
point D 0 3
point E 4 3
point F 2 -1.5
distance A D 3
distance A E 5
distance A F 2.5
distance B D 5
distance B E 3
distance B F 2.5
distance C D 6.325
distance C E 6.325
distance C F 10.5
distance A B 4
end
> 0
excess 1
part 1 over elements 6 held 10 due 9 : A B C D E F
c9 : distance C F 10.5 repeat off 469 nm
$ excess
sketch 1
point A 0 0
point B 4 0
point C 4 3
point D 0 3
distance A B 4
distance A C 5
distance A D 3
distance B C 3
distance B D 5
distance C D 4
distance A C 5.001
end
> 0
excess 1
part 1 over elements 4 held 7 due 5 : A B C D
c6 : distance C D 4 repeat off 0 nm
c7 : distance A C 5.001 repeat off -1000 nm
$ excess within=999
sketch 1
point A 0 0
point B 4 0
point C 4 3
point D 0 3
distance A B 4
distance A C 5
distance A D 3
distance B C 3
distance B D 5
distance C D 4
distance A C 5.001
end
> 0
excess 1
part 1 over elements 4 held 7 due 5 : A B C D
c6 : distance C D 4 repeat off 0 nm
c7 : distance A C 5.001 conflict off -1000 nm
$ excess
sketch 1
line X 0 0 4 0
line Y 0 0 0 3
point P 2 2
distance P X 2
distance P Y 2
angle X Y 1/0
angle X Y 1/1
angle X Y -1/0
end
> 0
excess 1
part 1 over elements 3 held 5 due 3 : X Y P
c4 : angle X Y 1/1 conflict off 500000000 ppb
c5 : angle X Y -1/0 repeat off 0 ppb
$ excess
sketch 1
point A 0 0
point B 8 0
point C 4 -3
line L 0 0 8 0
point D -4 1
distance A B 8
on A L
on B L
distance C A 5
distance C B 5
distance D C 4
distance D A 3
distance D L 4
end
> 0
excess 1
part 1 over elements 5 held 8 due 7 : A B C L D
c8 : distance D L 4 conflict off -7000000 nm
$ excess
sketch 1
point A 0 0
point B 4 0
point C 4 3
line L 0 0 1 -2
line M 0 0 -3 1
distance A B 4
distance A C 5
distance B C 3
on A L
on B L
on B M
on C M
angle L M 1/0
end
> 0
excess 1
part 1 over elements 5 held 8 due 7 : A B C L M
c8 : angle L M 1/0 conflict off 0 ppb turned drawn - placed 1
$ excess
sketch 2
point A 0 0
point B 4 0
point C 4 3
distance A B 4
distance A C 5
distance B C 3
block A 0 0 B 4 0 C 4 -3
end
> 0
excess 1
part 1 over elements 3 held 6 due 3 : A B C
c4 : block A 0 0 B 4 0 C 4 -3 conflict off 0 nm turned drawn - placed 1
$ excess
sketch 2
point A 0 0
point B 4 0
point C 4 3
point D 0 3
block A 0 0 B 4 0 C 4 3
block A 0 0 B 4 0 D 0 3
distance A B 4
end
> 0
excess 1
part 1 over elements 4 held 7 due 5 : A B C D
c3 : distance A B 4
stays over
$ excess
sketch 1
point P1 -5 17
line L2 18 10 21 12
line L3 10 -4 7 -8
line L4 10 14 15 15
line L5 20 -11 17 -15
point P6 13 4
point P7 -10 17
point P1b -19 -3
line L2b 7 5 12 1
line L3b 3 -14 6 -18
point P6b 11 -7
point P7b 20 -1
angle L2 L5 3/2
distance P1 L3 6
angle L3 L5 3/2
distance P1 L5 6
distance P1 L2 3
distance L3 P7 4
distance L4 P6 7
distance P6 P7 2
distance L4 P7 8
angle L2 L4 2/3
distance L2 P6 7
angle L2b L5 3/1
distance P1b L3b 7
angle L3b L5 2/3
distance P1b L5 6
distance P1b L2b 6
distance L3b P7b 2
distance L4 P6b 7
distance P6b P7b 7
distance L4 P7b 3
angle L2b L4 3/3
distance L2b P6b 4
end
> 0
excess 1
part 1 over elements 12 held 22 due 21 : P1 L2 L3 L4 L5 P6 P7 P1b L2b L3b P6b P7b
stays over
$ excess
sketch 1
point A 0 0
point B 7 0
point C 3 1
distance A B 7
distance A C 3
distance B C 4
distance A B 7
end
> 0
excess 1
part 1 over elements 3 held 4 due 3 : A B C
c4 : distance A B 7
fault s1 build height C flat 0 0 bits 38
$ excess
sketch 1
point P0 -4000 -13500
line L1 14250 5000 14250 4950
line L2 5750 -9250 5900 -9050
line L3 4000 -10500 4150 -10300
point P4 -5250 9500
point P5 11250 5250
distance P5 L3 3650
angle L1 L3 -3/4
distance P5 L2 4300
distance P4 L2 20050
distance P0 L2 5250
distance P0 L1 18250
distance P4 L1 19500
distance P0 L3 4600
angle L1 L2 -3/4
distance P4 L3 19400
distance P5 L1 3000
end
> 0
excess 1
part 1 over elements 6 held 11 due 9 : P0 L1 L2 L3 P4 P5
c10 : distance P4 L3 19400
c11 : distance P5 L1 3000
fault s4 build x P5 flat -3 3 bits 38
$ excess bits=16 within=1
sketch 1
point A 0 0
point B 1 0
distance A B 0.003
distance A B 0.004
end
> 0
excess 1
part 1 over elements 2 held 2 due 1 : A B
c2 : distance A B 0.004
fault c1 tolerance 2 nm limit 1
$ excess
sketch 1
point C 5 5
point D 5 8
point A 0 0
point B 1 0
distance A B 2
distance C D 3
distance B A 3
end
> 0
excess 1
part 2 over elements 2 held 2 due 1 : A B
c3 : distance B A 3 conflict off -1000000 nm
$ excess
sketch 1
end
> 1
refused line 2 E18 empty
$ excess
sketch 1
point A 0 0
distance A B 3
end
> 1
refused line 3 E6 unknown
";
