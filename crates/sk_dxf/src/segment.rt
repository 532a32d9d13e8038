// The segment of a line that is drawn.
ghost use Rattle.std.specs.Prelude.{◌≡◌, All, fold};
ghost use Rattle.std.specs.Int.{int_min, int_max};
ghost use Rattle.sk_base.specs.Bounds.{IsWithin};
ghost use Rattle.sk_dxf.specs.Segments.{reach, drawn};

/// Where a segment begins and ends along its line, in nanometres.
#[derive(Clone, Copy, Debug, PartialEq, Eq)]
pub(crate) struct Segment {
    pub(crate) first: i128,
    pub(crate) last: i128,
}

/// From the least of the places to the greatest.
pub(crate) fn reach(places: &[i128]) -> Segment
    requires { All (IsWithin 4611686018427387904) places.now }
    ensures value { result ≡ reach places.now }
    ensures first { IsWithin 4611686018427387904 result.first }
    ensures last { IsWithin 4611686018427387904 result.last }
{
    match places {
        [] => Segment { first: 0, last: 0 },
        [s, rest @ ..] => Segment {
            first: least(*s, rest),
            last: greatest(*s, rest),
        },
    }
}

fn least(s: i128, places: &[i128]) -> i128
    ensures { result ≡ fold int_min s places.now }
{
    let mut least = s;
    for place in places {
        least = least.min(*place);
    }
    least
}

fn greatest(s: i128, places: &[i128]) -> i128
    ensures { result ≡ fold int_max s places.now }
{
    let mut greatest = s;
    for place in places {
        greatest = greatest.max(*place);
    }
    greatest
}

/// A segment of no length goes on for 10 millimetres before its place and behind it.
pub(crate) fn drawn(segment: Segment) -> Segment
    requires first { IsWithin 4611686018427387904 segment.first }
    requires last { IsWithin 4611686018427387904 segment.last }
    ensures value { result ≡ drawn segment }
    ensures first { IsWithin 9223372036854775807 result.first }
    ensures last { IsWithin 9223372036854775807 result.last }
{
    if segment.first == segment.last {
        Segment {
            first: segment.first - 10_000_000,
            last: segment.last + 10_000_000,
        }
    } else {
        segment
    }
}
