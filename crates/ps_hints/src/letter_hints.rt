//! Hints for characters beyond ASCII.
ghost use Rattle.std.specs.Prelude.{IfSome};
ghost use Rattle.ps_hints.specs.Hints.{IsHintFor};
ghost use Rattle.ps_text.specs.declared.kind.ReadKind.TheVariants as kind;

use crate::hint::Hint;

// A hint for a sign as books print it, or for a quote.
fn printed_sign(c: char) -> Option<Hint>
    ensures { IfSome result (λ h. IsHintFor h kind.BadByte) }
{
    match c {
        '¬' => Some(Hint::Not),
        '∧' | '⋀' => Some(Hint::And),
        '∨' | '⋁' => Some(Hint::Or),
        '⊕' | '⊻' => Some(Hint::Xor),
        '→' | '⇒' | '⟶' | '⟹' | '⊃' => Some(Hint::Implies),
        '↔' | '⇔' | '⟷' | '⟺' | '≡' => Some(Hint::Iff),
        '≤' | '⩽' => Some(Hint::AtMostSign),
        '≥' | '⩾' => Some(Hint::AtLeastSign),
        '±' => Some(Hint::Margin),
        '“' | '”' | '„' | '‘' | '’' | '«' | '»' => Some(Hint::Quote),
        _ => None,
    }
}

// A hint for a character that looks as another does, or can't be seen.
fn look_alike(c: char) -> Option<Hint>
    ensures { IfSome result (λ h. IsHintFor h kind.BadByte) }
{
    match u32::from(c) {
        0xa0 | 0x1680 | 0x2000..=0x200a | 0x2028 | 0x2029 | 0x202f | 0x205f | 0x3000 => {
            Some(Hint::Blank)
        }
        0xad | 0x200b..=0x200f | 0x202a..=0x202e | 0x2060..=0x206f | 0xfeff => Some(Hint::Unseen),
        0x37e => Some(Hint::GreekQuestion),
        0xff01..=0xff5e => Some(Hint::FullWidth),
        _ => None,
    }
}

/// A hint for a character beyond ASCII that isn't a letter.
pub(crate) fn letter_hint(c: char) -> Option<Hint>
    ensures { IfSome result (λ h. IsHintFor h kind.BadByte) }
{
    match printed_sign(c) {
        Some(hint) => Some(hint),
        None => look_alike(c),
    }
}
