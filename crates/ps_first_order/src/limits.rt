//! The limits of a text over listed constants.
ghost use Rattle.std.specs.Prelude.{◌≡◌};
ghost use Rattle.ps_first_order.specs.declared.limits.TheConstants.{MOST_CONSTANTS};
ghost use Rattle.ps_first_order.specs.declared.limits.TheConstants.{MOST_PREDICATES};
ghost use Rattle.ps_first_order.specs.declared.limits.TheConstants.{MOST_ARITY, UNDERSCORE};

/// The most constants.
pub const MOST_CONSTANTS: usize = 16;
/// The most predicates.
pub const MOST_PREDICATES: usize = 64;
/// The most terms of a predicate.
pub const MOST_ARITY: u8 = 3;
/// What joins the names of a predicate and of its constants: `_`.
pub const UNDERSCORE: u8 = b'_';

/// The limits by their numbers.
pub fn limits_have_these_numbers()
    ensures constants { MOST_CONSTANTS ≡ 16 }
    ensures predicates { MOST_PREDICATES ≡ 64 }
    ensures arity { MOST_ARITY ≡ 3 }
    ensures underscore { UNDERSCORE ≡ 95 }
{}
