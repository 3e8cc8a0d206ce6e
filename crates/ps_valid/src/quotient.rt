//! Whether a quotient is a value.
ghost use Rattle.std.specs.Prelude.{◌≡◌, ◌↔◌, ◌*ℤ◌, ◌<ℤ◌, pos, IsTrue};
ghost use Rattle.ps_meaning.specs.Wide.{Fits};

use ps_frac::Fraction;

fn equal(a: i128, b: i128) -> bool
    ensures { IsTrue result ↔ (a ≡ b) }
{
    a == b
}

#[tactic(auto, using(crate::proofs::Quotients::same_number, crate::proofs::Quotients::same_parts))]
fn same(a: &Fraction, b: &Fraction) -> bool
    ensures { IsTrue result ↔ (a.now ≡ b.now) }
{
    equal(a.numerator(), b.numerator()) && equal(a.denominator(), b.denominator())
}

/// Whether `over / under` is a value, by their quotient in lowest terms, since the cross products
/// may not fit.
#[tactic(auto, using(crate::proofs::Quotients::quotients))]
pub fn is_quotient(value: &Fraction, over: i128, under: i128) -> bool
    requires positive { pos 0 <ℤ under }
    requires small { Fits over }
    ensures { IsTrue result ↔ ((over *ℤ pos value.now.under) ≡ (value.now.over *ℤ under)) }
{
    same(&Fraction::new(over, under), value)
}
