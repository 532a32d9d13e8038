//! Calls over devices of which some call fails, or that move little at a time.

/// Calls of the commands that read a whole input first.
pub const READERS: &str = "
$ check
sketch 1
point A 7 7
end
> 0
verdict well
elements 1
constraints 0
parts 1
part 1 sound elements 1 held 0 due 0 : A
$ check
sketch 3
> 1
refused line 1 E1 header
$ plan
sketch 1
point A 0 0
point B 4 0
point C 4 3
distance A B 4
distance A C 5
distance B C 3
end
> 0
verdict well
elements 3
constraints 3
steps 1
leaf c1 : distance A B 4
leaf c2 : distance A C 5
leaf c3 : distance B C 3
step s1 joins c3 c2 c1 at C A B keeps c1 turn +
$ solve
sketch 1
point A 0 0
point B 4 0
point C 4 3
distance A B 4
distance A C 5
distance B C 3
end
> 0
verdict well
steps 1
bits 38
point A 0 0
point B 4000000 0
point C 4000000 3000000
length tolerance 0 nm at c1
angle tolerance 0 ppb at none
$ solve
sketch 1
point A 0 0
point B 7 0
point C 3 1
distance A B 5
distance A C 1
distance B C 1
end
> 7
fault s1 build height C gap -1443109011456 -1443109011456 bits 38
$ solve bits=16 within=1
sketch 1
point A 0 0
point B 1 0
distance A B 0.003
end
> 8
fault c1 tolerance 2 nm limit 1
$ solve
sketch 1
point A 0 0
point B 1 0
end
> 6
verdict open
elements 2
constraints 0
parts 2
part 1 sound elements 1 held 0 due 0 : A
part 2 sound elements 1 held 0 due 0 : B
$ dxf
sketch 1
point A 7 7
end
> 0
0
SECTION
2
ENTITIES
0
POINT
8
0
10
0.000000
20
0.000000
0
ENDSEC
0
EOF
$ offers
sketch 1
point A 0 0
point B 1 0
distance A B 1
end
offer 1 c1 c2
end
> 0
offer 1 stale c2
verdict well
elements 2
constraints 1
parts 1
part 1 sound elements 2 held 1 due 1 : A B
$ session
point A 0 0
undo

undo
check
> 0
ok A
ok
refused S3 nothing-to-undo
refused E18 empty
$ migrate
sketch 1
point A 7 7
end
> 0
sketch 2
point A 7 7
end
$ verify
sketch 1
point A 7 7
end
point A 0 1
tolerance 0 2
> 0
verified steps 0 length 0 nm angle 2 ppb
$ verify
sketch 1
point A 7 7
end
tolerance 0 2
> 9
verify fails element A
$ verify
sketch 1
point A 7 7
end
end
> 1
refused line 4 E2 word
$ spare
sketch 1
point A 0 0
point B 1 0
distance A B 1
distance A B 1
end
> 0
spare 2
c1 : distance A B 1
c2 : distance A B 1
$ flips
sketch 1
point A 0 0
point B 7 0
point C 3 1
distance A B 7
distance A C 3
distance B C 4
end
flip s1
flip s2
end
> 0
flip 1 fault
fault s1 build height C flat 0 0 bits 38
flip 2 no-choice s2
$ flips
sketch 1
point A 0 0
point B 1 0
end
end
> 6
verdict open
elements 2
constraints 0
parts 2
part 1 sound elements 1 held 0 due 0 : A
part 2 sound elements 1 held 0 due 0 : B
$ flips
sketch 1
point A 7 7
end
flop
> 1
refused line 4 E2 word
$ parts
sketch 1
point A 10 20
point B 10 24
point C 7 24
distance A B 4
distance A C 5
distance B C 3
end
> 0
verdict well
parts 1
part 1 sound elements 3 held 3 due 3 : A B C
steps 1
bits 38
point A 0 0
point B 4000000 0
point C 4000000 3000000
length tolerance 0 nm at c1
angle tolerance 0 ppb at none
$ derive order=7
sketch 1
point A 0 0
point B 1 0
distance A B 1
distance A B 1
end
> 0
clusters 1
cluster 1 : A B
$ excess
sketch 1
point A 0 0
point B 1 0
distance A B 2.5
distance B A 3
end
> 0
excess 1
part 1 over elements 2 held 2 due 1 : A B
c2 : distance B A 3 conflict off -500000 nm
$ complete
sketch 1
point A 0 0
point B 3 4
end
> 0
sketch 1
point A 0 0
point B 3 4
distance A B 5
end
$ complete
sketch 1
point A 2 2
circle C 2 2 1
end
> 6
no completion stuck
verdict open
elements 2
constraints 0
parts 2
part 1 sound elements 1 held 0 due 0 : A
part 2 sound elements 1 held 0 due 0 : C
$ measure
sketch 1
point A 0 0
point B 4 0
point C 4 3
distance A B 4
distance A C 5
distance B C 3
end
point C 4000000 3000000
point A 0 0
point B 4000000 0
end
> 0
c1 : distance A B 4 off 0 nm
c2 : distance A C 5 off 0 nm
c3 : distance B C 3 off 0 nm
length tolerance 0 nm at c1
angle tolerance 0 ppb at none
$ measure
sketch 1
point A 0 0
point B 4 0
point C 4 3
distance A B 4
distance A C 5
distance B C 3
end
point A 0 0
point B 4000000 0
end
> 9
measure fails element C
$ why
sketch 1
point A 0 0
point B 4 0
point C 4 3
point D 0 3
distance A B 4
distance A C 5
distance A D 3
distance B C 3
distance B D 5
end
> 0
why 0
";

/// A call that reads nothing.
pub const UNREAD: &str = "
$ grow n=3
> 0
grow 3
elements 3
constraints 3
verdict well
steps 1
sum x 18000000 nm
sum y 32000000 nm
length tolerance 0 nm at c2
angle tolerance 0 ppb at line X
";

/// Whole pieces a call, over devices in memory: before `:` and its words a row has which read fails, how much room there is,
/// and which write fails.
///
/// The first read, the first write, no room at all, a room of five bytes, calls that never come. A session writes whole
/// replies: a read that fails, even the one behind the last line, leaves nothing written, and a write that fails leaves the
/// replies before it.
pub const FAULTS: &str = "
$1 1000 0: check
sketch 1
point A 0 0
point B 4 0
point C 4 3
distance A B 4
distance A C 5
distance B C 3
end
> 3
$0 1000 1: check
sketch 1
point A 0 0
point B 4 0
point C 4 3
distance A B 4
distance A C 5
distance B C 3
end
> 4
$0 0 0: check
sketch 1
point A 0 0
point B 4 0
point C 4 3
distance A B 4
distance A C 5
distance B C 3
end
> 4
$0 5 0: check
sketch 1
point A 0 0
point B 4 0
point C 4 3
distance A B 4
distance A C 5
distance B C 3
end
> 4
verdi$0 0 0: check
sketch 1
point A 7 7
end
> 4
$9 1000 9: check
sketch 1
point A 7 7
end
> 0
verdict well
elements 1
constraints 0
parts 1
part 1 sound elements 1 held 0 due 0 : A
$0 1000 0: check
sketch 1
point A 7 7
end
> 0
verdict well
elements 1
constraints 0
parts 1
part 1 sound elements 1 held 0 due 0 : A
$2 1000 0: session
point A 0 0

point B 1 0
write
> 3
$0 0 0: session
point A 0 0

point B 1 0
write
> 4
$0 7 0: session
point A 0 0

point B 1 0
write
> 4
ok A
ok$0 1000 2: session
point A 0 0

point B 1 0
write
> 4
ok A
$0 1000 3: session
point A 0 0

point B 1 0
write
> 4
ok A
ok B
$0 1000 3: session
point A 0 0
point B 4 0
point C 4 3
point D 0 3
distance A B 4
distance A C 5
distance A D 3
distance B C 3
distance B D 5
distance C D 4
check
drop 6
check
undo
check
end
> 4
ok A
ok B
";

/// Sessions that end in the middle of a piece, and lines that are blank, a comment, or unknown.
pub const ENDS: &str = "
$ live
point A 0 0
end
point B 1 0
> 0
ok A
$ live

point A 0 0

# a comment
check
> 0
ok A
verdict well
elements 1
constraints 0
parts 1
part 1 sound elements 1 held 0 due 0 : A
$ live
endpoint
end end
end
> 0
refused E2 word
refused E3 shape
";

/// Pieces of so many bytes a call, and whole replies: before `:` and its words a row has how many bytes, which read fails, and
/// which write fails, or 0. A failing call leaves the replies to the lines that had come to their end before it.
pub const PIECES: &str = "
$9 1 0: live
point A 0 0
undo
undo
> 3
$9 2 0: live
point A 0 0
undo
undo
> 3
$9 3 0: live
point A 0 0
undo
undo
> 3
ok A
ok
$9 4 0: live
point A 0 0
undo
undo
> 3
ok A
ok
refused S3 nothing-to-undo
$9 0 1: live
point A 0 0
undo
undo
> 4
$9 0 2: live
point A 0 0
undo
undo
> 4
ok A
$9 0 3: live
point A 0 0
undo
undo
> 4
ok A
ok
";

/// A byte a call: before `:` and its words a row has which read fails, which write or flush, or 0, and whether it takes nothing.
///
/// Behind each reply is a flush: the last byte of a reply, its flush, the byte behind that, the next flush, and the last one.
pub const BYTES: &str = "
$0 5 0: live
point A 0 0
undo
undo
> 4
ok A$0 6 0: live
point A 0 0
undo
undo
> 4
ok A
$0 7 0: live
point A 0 0
undo
undo
> 4
ok A
$0 10 0: live
point A 0 0
undo
undo
> 4
ok A
ok
$0 38 0: live
point A 0 0
undo
undo
> 4
ok A
ok
refused S3 nothing-to-undo
";

/// What is read of a text a byte a call, where a call fails, behind how many calls there are: three bytes take four calls, the
/// last of which is told the end, and there is no fifth at the end, nor any behind a call that fails.
///
/// What is taken of a text and a flush behind it a byte a call, where a call fails, or takes nothing, behind whether all was
/// done: a writer that fails, or takes nothing of a piece, has not taken it, and one that can't be flushed tells it.
pub const ADAPTERS: &str = "
$ read 1
abc> 1
fault$ read 2
abc> 2
fault$ read 3
abc> 3
fault$ read 4
abc> 4
fault$ read 5
abc> 4
abc$ read 9
abc> 4
abc$ put 1
abc> false
$ put 2
abc> false
a$ put 3
abc> false
ab$ put 4
abc> false
abc$ put 5
abc> true
abc$ put-none 1
abc> false
$ put-none 2
abc> false
a$ put-none 3
abc> false
ab";
