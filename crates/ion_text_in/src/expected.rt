//! What must come next in a text, and which tokens may.
ghost use Rattle.std.specs.Prelude.{◌≡◌, ◌≢◌, List, [], ◌∷◌, Option, Some, None, true, false};
ghost use Rattle.ion_value.specs.declared.ion_type.Kind as kinds;
ghost use Rattle.ion_value.specs.Value.{SymbolAt};
ghost use Rattle.ion_text_in.specs.Firsts.{first_of};
ghost use Rattle.ion_text_in.specs.Positions.{innermost};
ghost use Rattle.ion_text_in.specs.Reading as reading;
ghost use Rattle.ion_text_in.specs.Expecting.{expected_in, is_separated, kind_in, wanted, MayExpect};

use crate::first::First;
use ion_value::ion_type::Kind;

/// What must come next.
#[derive(Clone, Copy)]
pub(crate) enum Expected {
    /// A value, after its field's name and annotations.
    Value,
    /// A field's name, or the end of the struct.
    Field,
    /// A comma, or the end of the container.
    Separator,
}

#[inline]
pub(crate) fn is_same(one: Kind, other: Kind) -> bool
    ensures { result ≡ reading.is_same one other }
{
    matches!(
        (one, other),
        (Kind::List, Kind::List) | (Kind::Sexp, Kind::Sexp) | (Kind::Struct, Kind::Struct)
    )
}

// Where a member of a container may begin.
#[inline]
pub(crate) fn at_member(kind: Kind) -> Expected
    ensures is { wanted result None [] ≡ reading.member_of kind }
    ensures may { (outer : List kinds.Kind) → MayExpect result (kind ∷ outer) None [] }
{
    match kind {
        Kind::Struct => Expected::Field,
        Kind::List | Kind::Sexp => Expected::Value,
    }
}

// Whether a comma must come, or the end of the container.
#[inline]
pub(crate) fn is_separator(expected: Expected) -> bool
    ensures { (opened : List kinds.Kind) → MayExpect expected opened None []
        → expected_in result (kind_in opened) ≡ expected }
{
    matches!(expected, Expected::Separator)
}

// What must come in a container of a kind: a separator, or a member.
#[inline]
pub(crate) fn expected_in(separator: bool, kind: Kind) -> Expected
    ensures { result ≡ expected_in separator kind }
{
    if separator {
        Expected::Separator
    } else {
        at_member(kind)
    }
}

// Whether a comma stands between members of a container of a kind.
#[inline(always)]
pub(crate) fn is_separated(kind: Kind) -> bool
    ensures { result ≡ is_separated kind }
{
    !matches!(kind, Kind::Sexp)
}

// The kind of container in which members stand so.
#[inline(always)]
pub(crate) fn member_kind(inner: Option<Kind>) -> Kind
    ensures { (opened : List kinds.Kind) → innermost opened ≡ inner → kind_in opened ≡ result }
{
    inner.unwrap_or(Kind::Sexp)
}

// Where a member of the innermost container, if any, may begin.
#[inline]
pub(crate) fn after_comma(kind: Option<Kind>) -> Expected
    ensures is { wanted result None [] ≡ reading.at_member kind }
    ensures may { (opened : List kinds.Kind) → innermost opened ≡ kind
        → MayExpect result opened None [] }
{
    match kind {
        None => Expected::Value,
        Some(kind) => at_member(kind),
    }
}

// What comes after a member of the innermost container, if any.
#[inline]
pub(crate) fn after_member(kind: Option<Kind>) -> Expected
    ensures is { wanted result None [] ≡ reading.after_member kind }
    ensures may { (opened : List kinds.Kind) → innermost opened ≡ kind
        → MayExpect result opened None [] }
{
    match kind {
        Some(Kind::List | Kind::Struct) => Expected::Separator,
        Some(Kind::Sexp) | None => Expected::Value,
    }
}

// Whether a token that so begins is read before it is found not to belong here.
#[tactic(auto, unfolding(crate::specs::Reading::may_come))]
#[inline]
pub(crate) fn may_come(expected: Expected, first: First) -> bool
    ensures { (field : Option SymbolAt) (annotations : List SymbolAt)
        → result ≡ reading.may_come (wanted expected field annotations) (first_of first) }
{
    match (expected, first) {
        (Expected::Value, _) => true,
        (Expected::Field, First::Word | First::QuotedSymbol | First::String | First::LongString) =>
            true,
        (
            _,
            First::Number
            | First::Word
            | First::QuotedSymbol
            | First::String
            | First::LongString
            | First::Lob
            | First::Operator
            | First::Infinity,
        ) => false,
        _ => true,
    }
}

#[inline]
pub(crate) fn is_colons(found: Option<First>) -> bool
    ensures some { result ≡ true → found ≡ Some First.Colons }
    ensures none { result ≡ false → found ≢ Some First.Colons }
{
    matches!(found, Some(First::Colons))
}
