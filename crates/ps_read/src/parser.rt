//! Problem texts as they are parsed.
ghost use Rattle.std.specs.Prelude.{◌≡◌, ◌++◌, ◌-◌, [], OnOk, IfErr};
ghost use Rattle.ps_problem.specs.declared.limits.TheConstants.{MOST_DRAFTED};
ghost use Rattle.ps_lex.specs.KeptTokens.{token_of};
ghost use Rattle.ps_read.specs.Machine.{at_first};
ghost use Rattle.ps_read.specs.Derivations.{IsParsed};
ghost use Rattle.ps_read.specs.Taking.{IsKept, CountsAtMost, begins, begun_at, IsTaken, IsTokenRefused};
ghost use Rattle.ps_read.specs.Kept.{machine_of, places_of, drafted_in};

use crate::item_parser::ItemParser;
use crate::parse_error::ParseError;
use ps_io::{List, NoMemory};
use ps_lex::{Position, State, Token};
use ps_problem::Draft;
use ps_text::Part;
use std::alloc::Global;

/// Parses a problem text, token by token, into a draft. It keeps where each item's first token
/// stands, since a count that passes its limit is refused there.
#[derive(Drop)]
pub struct Parser {
    pub(crate) state: State,
    pub(crate) items: ItemParser,
    pub(crate) places: List<Position>,
}

// Whether an item begins with the token.
fn begins(part: Part, token: &Token) -> bool
    ensures { result ≡ begins part (token_of token.now) }
{
    match token {
        Token::Word(letters) => part == Part::Item && letters.as_slice() != b"end".as_slice(),
        _ => part == Part::Item,
    }
}

// Keeps the place of a token that begins an item.
fn keep_begun(
    places: &mut List<Position>,
    part: Part,
    token: &Token,
    place: Position,
) -> Result<(), NoMemory>
    ensures { OnOk result
        (places.new ≡ places.old ++ begun_at part (token_of token.now) place) }
{
    if begins(part, token) {
        places.push(place)
    } else {
        Ok(())
    }
}

impl Parser {
    /// Before the first token of a text.
    pub fn new(alloc: Global) -> Parser
        ensures machine { machine_of result ≡ at_first }
        ensures places { places_of result ≡ [] }
    {
        Parser {
            state: State::start(alloc),
            items: ItemParser::new(alloc),
            places: List::new(alloc),
        }
    }

    /// Takes the next token, which begins at this place, or refuses it: where it is too long a
    /// word, or else isn't expected, or else is no version, no probability, or one nesting too
    /// many. A refused token changes nothing. For want of memory only some of a token's work may
    /// be done, and then the parser takes no more. The tokens are those of a lexer, fewer than
    /// 2^32 - 1.
    pub fn take(&mut self, token: &Token, place: Position) -> Result<(), ParseError>
        requires derivation { IsParsed (machine_of self.old) }
        requires word { IsKept token.now }
        requires room { CountsAtMost (MOST_DRAFTED - 1) (machine_of self.old) }
        ensures taken { OnOk result (IsTaken self.old token.now place self.new) }
        ensures refused { IfErr result (IsTokenRefused self.old token.now self.new) }
    {
        if let Some(kind) = self.state.refusal(token) {
            return Err(ParseError::Refused(kind));
        }
        let part = self.state.part();
        keep_begun(&mut self.places, part, token, place)?;
        self.items.take(part, token)?;
        self.state.advance(token)?;
        Ok(())
    }

    /// The part of the text that is next.
    pub fn part(&self) -> Part
        ensures { result ≡ (machine_of self.now).state.part }
    {
        self.state.part()
    }

    /// The draft of the items so far.
    pub fn draft(&self) -> &Draft
        ensures { result.now ≡ drafted_in (machine_of self.now) }
    {
        &self.items.formulas.draft
    }

    /// Where the first tokens of the items stand, in order.
    pub fn places(&self) -> &[Position]
        ensures { result.now ≡ places_of self.now }
    {
        self.places.as_slice()
    }
}
