//! The binary connectives as they are written.
ghost use Rattle.std.specs.Prelude.{◌≡◌};
ghost use Rattle.ps_canonical.specs.Tasks.{level_of, left_of, right_of, sign_of};

/// A connective between two operands.
#[derive(Clone, Copy, Debug, PartialEq, Eq)]
pub(crate) enum Connective {
    And,
    Or,
    Implies,
    Iff,
}

impl Connective {
    // How tightly it binds, from 1 on.
    pub(crate) fn level(self) -> u32
        ensures { result ≡ level_of self }
    {
        match self {
            Connective::And => 4,
            Connective::Or => 3,
            Connective::Implies => 2,
            Connective::Iff => 1,
        }
    }

    // The level that its left operand needs: all but `->` group to the left.
    pub(crate) fn left(self) -> u32
        ensures { result ≡ left_of self }
    {
        match self {
            Connective::And => 4,
            Connective::Or => 3,
            Connective::Implies => 3,
            Connective::Iff => 1,
        }
    }

    // The level that its right operand needs.
    pub(crate) fn right(self) -> u32
        ensures { result ≡ right_of self }
    {
        match self {
            Connective::And => 5,
            Connective::Or => 4,
            Connective::Implies => 2,
            Connective::Iff => 2,
        }
    }

    // Its sign, with a space on each side.
    pub(crate) fn sign(self) -> &'static [u8]
        ensures { result.now ≡ sign_of self }
    {
        match self {
            Connective::And => b" & ",
            Connective::Or => b" | ",
            Connective::Implies => b" -> ",
            Connective::Iff => b" <-> ",
        }
    }
}
