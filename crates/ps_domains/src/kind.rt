//! Why no text over listed constants is read.
use ps_text::ReadKind;

/// What is expected at a place, beside what version 2 expects.
#[derive(Clone, Copy, Debug, PartialEq, Eq)]
pub enum DomainWhat {
    /// `const`, behind the head.
    Const,
    /// `,` or `;`, behind a constant that is declared.
    ConstMore,
    /// The name of a constant, of a predicate or of a variable.
    Name,
    /// The arity of a predicate that is declared.
    Arity,
    /// `)`, behind an arity and behind a term.
    ParenEnd,
}

/// Why no text over listed constants is read: for its form, or for the ground formulas of an item.
#[derive(Clone, Copy, Debug, PartialEq, Eq)]
pub enum GroundKind {
    // Of the form.
    /// What version 2 is refused for too.
    Read(ReadKind),
    /// The token isn't one that is expected.
    Expected(DomainWhat),
    /// A name with `_`.
    BadName,
    /// The name is one of a constant, of a predicate, or of a variable that is bound there.
    NameTaken,
    /// One constant more than `MOST_CONSTANTS`, or one predicate more than `MOST_PREDICATES`.
    TooManyNames,
    /// An arity that isn't one digit from 0 to `MOST_ARITY`.
    BadArity,
    /// No predicate, or neither a constant nor a variable that is bound there.
    UnknownName,
    /// The token shows that a predicate has fewer or more terms than its arity.
    WrongCount,
    // Of an item.
    /// With the item the ground formulas have more marks than they may have.
    GroundTooLarge,
    /// The name of a ground atom is too long.
    AtomTooLong,
    /// The canonical spelling of a ground formula nests too deep.
    GroundTooDeep,
}
