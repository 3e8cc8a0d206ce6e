//! A number of a dual.
ghost use Rattle.std.specs.Prelude.{◌≡◌};
ghost use Rattle.ps_claims.specs.Certificates.{IsMultiplier};

use std::marker::Model;

/// A number of a dual, within the limits of a report.
#[derive(Drop)]
pub(crate) struct DualNumber {
    number: i128,
}

impl Model for DualNumber {
    ghost use Rattle.std.specs.Prelude.{ℤ};
    ghost use Rattle.ps_claims.specs.Certificates.{IsMultiplier};

    ghost Value = { ℤ };

    ghost view = { λ n. n.number };

    ghost invariant = { λ n. IsMultiplier n.number };
}

impl DualNumber {
    /// A number within the limits.
    pub(crate) fn of(number: i128) -> DualNumber
        requires { IsMultiplier number }
        ensures { result ≡ number }
    {
        DualNumber { number }
    }

    /// The number.
    pub(crate) fn number(&self) -> i128
        ensures value { result ≡ self.now }
        ensures small { IsMultiplier result }
    {
        self.number
    }
}
