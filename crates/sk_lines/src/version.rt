ghost use Rattle.std.specs.Prelude.{◌≡◌, ◌≤◌, length, take};
ghost use Rattle.std.specs.List.{position};
ghost use Rattle.sk_lines.specs.Comments.{is_hash, before_comment};

/// The version of a text. Version 2 has comments and blocks.
#[derive(Clone, Copy, Debug, PartialEq, Eq)]
pub enum Version {
    One,
    Two,
}

/// How many bytes of a line stand before its comment.
pub(crate) fn len_before_comment(version: Version, line: &[u8]) -> usize
    ensures said { take result line.now ≡ before_comment version line.now }
    ensures within { result ≤ length line.now }
{
    match version {
        Version::One => line.len(),
        Version::Two => match first_hash(line) {
            Some(place) => place,
            None => line.len(),
        },
    }
}

/// The place of the first `#`.
fn first_hash(line: &[u8]) -> Option<usize>
    ensures { result ≡ position is_hash line.now }
{
    line.iter().position(|b| *b == b'#')
}
