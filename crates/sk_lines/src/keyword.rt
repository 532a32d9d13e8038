ghost use Rattle.std.specs.Prelude.{◌≡◌};
ghost use Rattle.sk_lines.specs.Keywords.{shared_keyword, keyword_of};

use crate::lines::is_word;
use crate::version::Version;

/// The first words of entries.
#[derive(Clone, Copy, Debug, PartialEq, Eq)]
pub enum Keyword {
    Point,
    Line,
    Circle,
    Distance,
    On,
    Tangent,
    Outside,
    Inside,
    Angle,
    Block,
}

/// The keyword that a word is. Version 2 has `block` too.
pub fn keyword_of(version: Version, word: &[u8]) -> Option<Keyword>
    ensures { result ≡ keyword_of version word.now }
{
    match version {
        Version::One => shared_keyword(word),
        Version::Two => {
            if is_word(word, "block") {
                return Some(Keyword::Block);
            }
            shared_keyword(word)
        }
    }
}

/// The keyword that a word is in each version.
fn shared_keyword(word: &[u8]) -> Option<Keyword>
    ensures { result ≡ shared_keyword word.now }
{
    if is_word(word, "point") {
        Some(Keyword::Point)
    } else if is_word(word, "line") {
        Some(Keyword::Line)
    } else if is_word(word, "circle") {
        Some(Keyword::Circle)
    } else if is_word(word, "distance") {
        Some(Keyword::Distance)
    } else if is_word(word, "on") {
        Some(Keyword::On)
    } else if is_word(word, "tangent") {
        Some(Keyword::Tangent)
    } else if is_word(word, "outside") {
        Some(Keyword::Outside)
    } else if is_word(word, "inside") {
        Some(Keyword::Inside)
    } else if is_word(word, "angle") {
        Some(Keyword::Angle)
    } else {
        None
    }
}
