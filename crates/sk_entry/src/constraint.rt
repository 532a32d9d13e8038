ghost use Rattle.std.specs.Prelude.{◌≡◌, [], ◌∷◌, Some, MatchResult};
ghost use Rattle.sk_base.specs.declared.Rule.TheVariants as rule;
ghost use Rattle.sk_lines.specs.declared.Keyword.TheVariants.{Distance, Inside, Angle};
ghost use Rattle.sk_lines.specs.Quantities.{um, ratio};
ghost use Rattle.sk_entry.specs.Named.{number_named};
ghost use Rattle.sk_entry.specs.EntryCodes.{entry_rows};
ghost use Rattle.sk_entry.specs.Ends.{names_and_kinds_rows, pair_rows, pair_rule, IsWithoutValue, AreEnds};
ghost use Rattle.sk_lines.specs.FirstCode.{first_code, unless};

use crate::field::{declared, different, kinds, label, length, not_zero, room_for_constraint};
use crate::scope::Scope;
use sk_base::{ConId, Constraint, Elem, Element, Rule};
use sk_lines::{Code, Keyword, angle_ratio};

/// A distance, by the words of its line.
pub(crate) fn read_distance<S: Scope>(
    s: &S,
    u: &[u8],
    v: &[u8],
    len: &[u8],
    number: ConId,
) -> Result<Constraint, Code>
    ensures { result ≡ unless (first_code (entry_rows (S.so_far s.now) Distance (u.now ∷ v.now ∷ len.now ∷ [])))
        (record { number = number; rule = rule.Distance (number_named (S.so_far s.now) u.now) (number_named (S.so_far s.now) v.now) (um len.now) }) }
{
    let (first, second) = ends(s, Keyword::Distance, u, v)?;
    let len = length(len)?;
    not_zero(len)?;
    different(u, v)?;
    room_for_constraint(s)?;
    Ok(Constraint {
        number,
        rule: Rule::Distance {
            u: first.number,
            v: second.number,
            len,
        },
    })
}

/// An `on`, a `tangent` or an `outside`, by the words of its line.
pub(crate) fn read_pair<S: Scope>(
    s: &S,
    keyword: Keyword,
    u: &[u8],
    v: &[u8],
    number: ConId,
) -> Result<Constraint, Code>
    requires { IsWithoutValue keyword }
    ensures { result ≡ unless (first_code (pair_rows (S.so_far s.now) keyword u.now v.now))
        (record { number = number; rule = pair_rule keyword (number_named (S.so_far s.now) u.now) (number_named (S.so_far s.now) v.now) }) }
{
    let (first, second) = ends(s, keyword, u, v)?;
    different(u, v)?;
    room_for_constraint(s)?;
    Ok(Constraint {
        number,
        rule: pair_rule(keyword, first.number, second.number),
    })
}

/// The rule of a constraint without a value.
fn pair_rule(keyword: Keyword, u: Elem, v: Elem) -> Rule
    requires { IsWithoutValue keyword }
    ensures { result ≡ pair_rule keyword u v }
{
    match keyword {
        Keyword::On => Rule::On { u, v },
        Keyword::Tangent => Rule::Tangent { u, v },
        Keyword::Outside => Rule::Outside { u, v },
        _ => unreachable!(),
    }
}

/// The two elements that a constraint names, whose kinds fit.
fn ends<'a, S: Scope>(
    s: &'a S,
    keyword: Keyword,
    u: &[u8],
    v: &[u8],
) -> Result<(&'a Element, &'a Element), Code>
    ensures { MatchResult result
        (λ ends. AreEnds (S.so_far s.now) keyword u.now v.now ends.0.now ends.1.now)
        (λ code. first_code (names_and_kinds_rows (S.so_far s.now) keyword u.now v.now) ≡ Some code) }
{
    let u = label(u)?;
    let v = label(v)?;
    let first = declared(s, u)?;
    let second = declared(s, v)?;
    kinds(keyword, first, second)?;
    Ok((first, second))
}

/// An `inside`, by the words of its line.
pub(crate) fn read_inside<S: Scope>(
    s: &S,
    u: &[u8],
    v: &[u8],
    number: ConId,
) -> Result<Constraint, Code>
    ensures { result ≡ unless (first_code (entry_rows (S.so_far s.now) Inside (u.now ∷ v.now ∷ [])))
        (record { number = number; rule = rule.Inside (number_named (S.so_far s.now) u.now) (number_named (S.so_far s.now) v.now) }) }
{
    let (first, second) = ends(s, Keyword::Inside, u, v)?;
    if first.shape.radius() == second.shape.radius() {
        return Err(Code::E9);
    }
    different(u, v)?;
    room_for_constraint(s)?;
    Ok(Constraint {
        number,
        rule: Rule::Inside {
            u: first.number,
            v: second.number,
        },
    })
}

/// An angle, by the words of its line.
pub(crate) fn read_angle<S: Scope>(
    s: &S,
    l: &[u8],
    m: &[u8],
    word: &[u8],
    number: ConId,
) -> Result<Constraint, Code>
    ensures { result ≡ unless (first_code (entry_rows (S.so_far s.now) Angle (l.now ∷ m.now ∷ word.now ∷ [])))
        (record { number = number; rule = rule.Angle (number_named (S.so_far s.now) l.now) (number_named (S.so_far s.now) m.now) (ratio word.now) }) }
{
    let (first, second) = ends(s, Keyword::Angle, l, m)?;
    let ratio = angle_ratio(word)?;
    if ratio.p == 0 {
        return Err(Code::E9);
    }
    different(l, m)?;
    room_for_constraint(s)?;
    Ok(Constraint {
        number,
        rule: Rule::Angle {
            l: first.number,
            m: second.number,
            ratio,
        },
    })
}
