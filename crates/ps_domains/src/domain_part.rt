//! Where a text over listed constants stands between two tokens.

/// The part of the text that is next.
#[derive(Clone, Copy, Debug, PartialEq, Eq)]
pub enum DomainPart {
    /// What version 2 has next; an operand may be a predicate with terms, or be quantified.
    Text,
    /// `const`, behind the head.
    Const,
    /// The name of a constant.
    Constant,
    /// What stands behind a constant that is declared.
    ConstMore,
    /// `pred`, or the first token of the first item, or `end`.
    Declaration,
    /// The name of a predicate.
    Predicate,
    /// The `(` behind the name of a predicate that is declared.
    PredicateParen,
    /// The arity of a predicate.
    Arity,
    /// The `)` behind an arity.
    ArityEnd,
    /// The `;` behind a predicate that is declared.
    PredicateEnd,
    /// The variable that a quantifier binds.
    Bound,
    /// The `(` behind a variable that is bound.
    BoundParen,
    /// The `(` before the terms of a predicate, or what stands behind an operand.
    Terms,
    /// A term of a predicate.
    Term,
    /// What stands behind a term.
    TermMore,
}
