//! What a certificate is to show.
ghost use Rattle.std.specs.Prelude.{◌≡◌};
ghost use Rattle.ps_check.specs.Subjects.{claim_on, kind_of, side_claim};

use ps_claims::{Claim, ClaimKind};
use ps_frac::Fraction;

/// What a certificate is to show.
#[derive(Drop)]
pub(crate) enum Subject {
    /// The verdict.
    OfVerdict,
    /// That the query of this number has impossible evidence.
    OfQuery {
        number: u32,
    },
    /// That this value is the query's bound on a side.
    OfSide {
        number: u32,
        upper: bool,
        value: Fraction,
    },
}

impl Subject {
    /// The claim.
    pub(crate) fn claim(&self) -> Claim
        ensures { result ≡ claim_on self.now }
    {
        match self {
            Subject::OfVerdict => Claim::Verdict,
            Subject::OfQuery { number } => Claim::Query { number: *number },
            Subject::OfSide { number, upper, .. } => side_claim(*number, *upper),
        }
    }
}

fn side_claim(number: u32, upper: bool) -> Claim
    ensures { result ≡ side_claim number upper }
{
    if upper {
        Claim::Upper { number }
    } else {
        Claim::Lower { number }
    }
}

/// The kind of a side.
pub(crate) fn kind_of(upper: bool) -> ClaimKind
    ensures { result ≡ kind_of upper }
{
    if upper {
        ClaimKind::Upper
    } else {
        ClaimKind::Lower
    }
}
