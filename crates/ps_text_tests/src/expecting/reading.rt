//! Feeds the tokens of a text to a `State`.

use crate::room::has_room;
use ps_lex::{Lexer, State, Token};
use ps_text::{Part, ReadKind};
use std::alloc::Global;
use std::test::Fail;

/// How a text was read: the first token that is refused, or the part that is next behind the last
/// token.
#[derive(Clone, Copy, Debug, PartialEq, Eq)]
pub(crate) enum Answer {
    Refused(ReadKind),
    Next(Part),
}

/// Goes on behind a token, or tells why it is refused.
fn refusal(state: &mut State, token: Option<Token>) -> Result<Option<ReadKind>, Fail> {
    match token {
        Some(token) => {
            let refusal = state.refusal(&token);
            if refusal.is_none() {
                state.advance(&token).ok().ok_or("memory")?;
            }
            Ok(refusal)
        }
        None => Ok(None),
    }
}

/// Reads a text up to its end or to the first token that is refused.
pub(crate) fn read(alloc: Global, text: &[u8]) -> Result<Answer, Fail> {
    let mut state = State::start(alloc);
    let mut lexer = Lexer::new();
    for k in 0..text.len() {
        if !has_room(&lexer) {
            return Ok(Answer::Next(state.part()));
        }
        let ended = lexer.take(text[k]);
        if let Some(kind) = refusal(&mut state, ended)? {
            return Ok(Answer::Refused(kind));
        }
    }
    match refusal(&mut state, lexer.finish())? {
        Some(kind) => Ok(Answer::Refused(kind)),
        None => Ok(Answer::Next(state.part())),
    }
}
