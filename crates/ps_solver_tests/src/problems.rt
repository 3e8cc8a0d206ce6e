//! Problems that the tests share, by their texts, and limits within which each is solved.
ghost use Rattle.std.specs.Prelude.{◌+◌, ◌<◌, ◌^◌, length};

use ps_generation::Limits;
use ps_problem::Problem;
use ps_read::read_whole;
use std::alloc::Global;

// More than any of these problems needs.
pub(crate) const LIMITS: Limits = Limits {
    pivots: 1_000,
    conflicts: 20_000,
};

pub(crate) const SINGLE: &[u8] = b"psat 1; P(a) = 1/3; end;";

pub(crate) const CONTRADICTORY: &[u8] = b"psat 1; P(a) = 1/3; P(a) = 2/3; end;";

pub(crate) const THREE: &[u8] = b"psat 1; P(a) = 1/3; P(a) >= 1/2; P(a) = 2/3; end;";

pub(crate) const ASKED: &[u8] = b"psat 1; P(a) >= 1/3; query P(a); end;";

pub(crate) const CONDITIONAL: &[u8] = b"psat 1; P(!a given b) in [1/4, 1/2]; P(!a) >= 1/2; end;";

// Both bounds hold in the world in which both atoms are true.
pub(crate) const CHAIN: &[u8] = b"psat 1; P(a) >= 9/10; P(a -> b) >= 99/100; end;";

// The problem that a text spells.
pub(crate) fn problem(alloc: Global, text: &[u8]) -> Option<Problem>
    requires { length text.now + 1 < 2 ^ 32 }
{
    read_whole(alloc, text).ok()
}
