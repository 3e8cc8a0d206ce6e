//! Whether a lexer may take one more byte.
ghost use Rattle.std.specs.Prelude.{IsTrue};
ghost use Rattle.ps_lex.specs.Places.{HasRoom};

use ps_lex::Lexer;

/// Whether the positions behind one more byte can still be told.
pub(crate) fn has_room(lexer: &Lexer) -> bool
    ensures { IsTrue result → HasRoom 1 lexer.now.here }
{
    let here = lexer.here();
    here.line < u32::MAX && here.column < u32::MAX && here.offset < u32::MAX
}
