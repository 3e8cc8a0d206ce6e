//! The hint for a refusal.
ghost use Rattle.std.specs.Prelude.{IfSome};
ghost use Rattle.ps_hints.specs.Hints.{IsHintFor};
ghost use Rattle.ps_text.specs.declared.kind.ReadKind.TheVariants as kinds;

use crate::byte_hints::byte_hint;
use crate::formula_hints::{operand_hint, operator_hint};
use crate::hint::Hint;
use crate::item_hints::{begin_hint, item_hint, semicolon_hint};
use crate::number_hints::{interval_hint, number_hint, relation_hint, value_hint};
use crate::place::end_of_tokens;
use crate::spot::Spot;
use crate::sum_hints::{prob_hint, term_hint};
use ps_read::{ReadKind, What};

// A hint where a token or a formula is expected.
fn expected_hint(what: What, spot: &Spot) -> Hint
    ensures { IsHintFor result (kinds.Expected what) }
{
    match what {
        What::Psat | What::Version => begin_hint(spot),
        What::Semicolon => semicolon_hint(spot),
        What::Item | What::Item2 => item_hint(spot),
        What::Term => term_hint(spot),
        What::Prob => prob_hint(spot),
        What::Paren => Hint::Probability,
        What::Formula => operand_hint(spot),
        What::Operator => operator_hint(spot),
        What::Relation => relation_hint(spot),
        What::Number => number_hint(spot),
        What::Bracket | What::Comma | What::BracketEnd => interval_hint(spot),
    }
}

// Whether a carriage return without a line feed behind it stands in some bytes.
fn has_lone_return(bytes: &[u8]) -> bool {
    let mut last = b' ';
    for byte in bytes {
        if last == b'\r' && *byte != b'\n' {
            return true;
        }
        last = *byte;
    }
    false
}

// A hint where the text ends too early.
fn end_hint(spot: &Spot) -> Hint
    ensures { IsHintFor result kinds.EndMissing }
{
    if end_of_tokens(spot.before) == 0 {
        Hint::Empty
    } else if has_lone_return(spot.before) {
        Hint::LoneReturn
    } else {
        Hint::End
    }
}

// A hint by the kind alone.
fn kind_hint(kind: ReadKind) -> Option<Hint>
    ensures { IfSome result (λ h. IsHintFor h kind) }
{
    match kind {
        ReadKind::NameTooLong => Some(Hint::Short),
        ReadKind::VersionUnknown => Some(Hint::Begin),
        ReadKind::DenominatorTooLarge | ReadKind::TooManyDecimals => Some(Hint::Round),
        ReadKind::TooDeep => Some(Hint::Nesting),
        ReadKind::TooManyAtoms => Some(Hint::Atoms),
        ReadKind::TooManyNodes => Some(Hint::Formulas),
        ReadKind::TooManyBounds => Some(Hint::Bounds),
        ReadKind::TooManyQueries => Some(Hint::Queries),
        ReadKind::TooManyTerms => Some(Hint::Terms),
        ReadKind::LinearTooLarge => Some(Hint::Large),
        ReadKind::MoreAfterEnd => Some(Hint::BehindEnd),
        _ => None,
    }
}

/// A hint for a refusal, by its kind and by what stands around the place.
pub(crate) fn hint_for(kind: ReadKind, spot: &Spot) -> Option<Hint>
    ensures { IfSome result (λ h. IsHintFor h kind) }
{
    match kind {
        ReadKind::BadByte => byte_hint(spot),
        ReadKind::Expected(what) => Some(expected_hint(what, spot)),
        ReadKind::NumberOutOfRange => Some(value_hint(spot)),
        ReadKind::EndMissing => Some(end_hint(spot)),
        _ => kind_hint(kind),
    }
}
