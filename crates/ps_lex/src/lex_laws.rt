//! What the tokens of bytes are: a call does nothing, and its clauses are the law.
ghost use Rattle.std.specs.Prelude.{ℕ, List, []};
ghost use Rattle.ps_text.specs.Pieces.{Piece, Cuts};
ghost use Rattle.ps_lex.specs.Places.{start};
ghost use Rattle.ps_lex.specs.Seen.{behind_all};
ghost use Rattle.ps_lex.specs.Told.{TellsAll, TellsUpTo, IsPositionBehind};

/// A lexer tells the tokens of the pieces that bytes are, each with where it begins. It stops at
/// the place where no piece stands, if there is one.
pub fn pieces_are_told()
    ensures whole { (pieces : List Piece) → Cuts pieces [] → TellsAll pieces }
    ensures bad { (ps : List Piece) (rest : List ℕ) → Cuts ps rest → TellsUpTo ps rest }
    ensures positions { (bytes : List ℕ) → IsPositionBehind bytes (behind_all start bytes) }
{}
