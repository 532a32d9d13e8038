// The choice that the last words of a step say.
ghost use Rattle.std.specs.Prelude.{◌≡◌, [], ◌∷◌};
ghost use Rattle.sk_claims.specs.ClaimLines.{choice_of, sign_of};

use sk_base::Sign;
use sk_lines::is_word;
use sk_tree::Choice;

/// The choice that one word says.
pub(crate) fn closed_choice(word: &[u8]) -> Option<Choice>
    ensures { result ≡ choice_of (word.now ∷ []) }
{
    if is_word(word, "none") {
        Some(Choice::Nothing)
    } else {
        None
    }
}

/// The choice that a word and a sign say.
pub(crate) fn open_choice(word: &[u8], sign: &[u8]) -> Option<Choice>
    ensures { result ≡ choice_of (word.now ∷ sign.now ∷ []) }
{
    if is_word(word, "turn") {
        Some(Choice::Turn(sign_of(sign)?))
    } else if is_word(word, "advance") {
        Some(Choice::Advance(sign_of(sign)?))
    } else {
        None
    }
}

fn sign_of(word: &[u8]) -> Option<Sign>
    ensures { result ≡ sign_of word.now }
{
    if is_word(word, "+") {
        Some(Sign::Plus)
    } else if is_word(word, "-") {
        Some(Sign::Minus)
    } else {
        None
    }
}
