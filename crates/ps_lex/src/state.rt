//! What is expected between two tokens.
ghost use Rattle.std.specs.Prelude.{◌≡◌, ◌<◌, nat_lt, OnOk, OnErr, None};
ghost use Rattle.std.specs.List.{list_any};
ghost use Rattle.ps_text.specs.declared.limits.TheConstants.{MOST_TERMS};
ghost use Rattle.ps_text.specs.ExpectedTokens.{at_start, in_version, in_term, in_relation};
ghost use Rattle.ps_text.specs.ExpectedTokens.{is_group, may_be_given, may_be_term, may_be_minus};
ghost use Rattle.ps_text.specs.ExpectedTokens.{begins_item, is_relation, is_term_sign};
ghost use Rattle.ps_text.specs.ExpectedTokens.{is_expected, what_at};
ghost use Rattle.ps_text.specs.ExpectedTokens.{greatest_value, terms_so_far, terms_fault, opens};
ghost use Rattle.ps_text.specs.ExpectedTokens.{depth_fault, fault_at, refusal};
ghost use Rattle.ps_text.specs.ExpectedTokens.{closed, after_item_start, after_left};
ghost use Rattle.ps_lex.specs.KeptTokens.{token_of, state_of, nots_ended, arrows_ended};
ghost use Rattle.ps_lex.specs.KeptTokens.{behind, behind_operand, behind_operator, HasRoom};

use crate::judge::{
    begins_operand, begins_signed, has_linear, is_connective, is_foreign, is_number, is_sign,
    is_term_sign, is_too_long, is_word, number_fault, version_fault, version_of,
};
use crate::stack::Stack;
use crate::token::Token;
use ps_io::NoMemory;
use ps_text::{
    GREATEST_NUMBER, MOST_OPEN, MOST_TERMS, Opening, Part, ReadKind, Symbol, Version, What,
};
use std::alloc::Global;

/// The state between two tokens, which tells what is expected: the part that is next; in a
/// probability, whether it is a query's, whether `given` stood, and what is open; the version; in a
/// linear sentence, how many terms stand before the last one; and whether a `-` stands before the
/// number. It reads no bytes; a `Lexer` tells it the tokens.
#[derive(Debug, Drop)]
pub struct State {
    pub(crate) part: Part,
    pub(crate) query: bool,
    pub(crate) given: bool,
    pub(crate) opened: Stack<Opening>,
    pub(crate) version: Version,
    pub(crate) linear: Option<u8>,
    pub(crate) minus: bool,
}

fn is_group(opening: &Opening) -> bool
    ensures { result ≡ is_group opening.now }
{
    matches!(opening, Opening::Group)
}

fn has_group(openings: &[Opening]) -> bool
    ensures { result ≡ list_any is_group openings.now }
{
    openings.iter().any(|opening| is_group(opening))
}

// Whether a token is `=`, `>=`, `<=` or `in`.
fn is_relation(token: &Token) -> bool
    ensures { result ≡ is_relation (token_of token.now) }
{
    is_sign(token, Symbol::Equals)
        || is_sign(token, Symbol::GreaterEquals)
        || is_sign(token, Symbol::LessEquals)
        || is_word(token, b"in")
}

impl State {
    /// What is expected at the start of a text.
    pub fn start(alloc: Global) -> State
        ensures { state_of result ≡ at_start }
    {
        State {
            part: Part::Psat,
            query: false,
            given: false,
            opened: Stack::new(alloc),
            version: Version::One,
            linear: None,
            minus: false,
        }
    }

    // Whether a condition may follow.
    #[tactic(auto, using(crate::proofs::Groups::any_group))]
    fn may_be_given(&self) -> bool
        ensures { result ≡ may_be_given (state_of self.now) }
    {
        !has_group(self.opened.items()) && !self.given && self.linear.is_none()
    }

    // Whether the sign of a further term may follow.
    fn may_be_term(&self) -> bool
        ensures { result ≡ may_be_term (state_of self.now) }
    {
        has_linear(self.version) && !self.given
    }

    // Whether a `-` may stand before the number.
    fn may_be_minus(&self) -> bool
        ensures { result ≡ may_be_minus (state_of self.now) }
    {
        self.linear.is_some() && !self.minus
    }

    // Whether an item, or `end`, may begin with a token.
    fn begins_item(&self, token: &Token) -> bool
        ensures { result ≡ begins_item self.now.version (token_of token.now) }
    {
        is_word(token, b"P")
            || is_word(token, b"query")
            || is_word(token, b"end")
            || (has_linear(self.version) && begins_signed(token))
    }

    // Whether a token is expected.
    fn is_expected(&self, token: &Token) -> bool
        ensures { result ≡ is_expected (state_of self.now) (token_of token.now) }
    {
        match self.part {
            Part::Psat => is_word(token, b"psat"),
            Part::Version => is_number(token),
            Part::Number | Part::First | Part::Second => {
                is_number(token) || (self.may_be_minus() && is_sign(token, Symbol::Minus))
            }
            Part::HeadEnd | Part::ItemEnd | Part::TextEnd => is_sign(token, Symbol::Semicolon),
            Part::Item => self.begins_item(token),
            Part::QueryProb | Part::TermProb => is_word(token, b"P"),
            Part::Term => is_number(token) || is_word(token, b"P"),
            Part::Paren => is_sign(token, Symbol::Open),
            Part::Operand => begins_operand(token),
            Part::Operator => {
                is_connective(token)
                    || is_sign(token, Symbol::Close)
                    || (self.may_be_given() && is_word(token, b"given"))
            }
            Part::Relation => { is_relation(token) || (self.may_be_term() && is_term_sign(token)) }
            Part::Bracket => is_sign(token, Symbol::OpenBracket),
            Part::Comma => is_sign(token, Symbol::Comma),
            Part::BracketEnd => is_sign(token, Symbol::CloseBracket),
            Part::Done => false,
        }
    }

    // The name of what is expected.
    fn what(&self) -> What
        ensures { result ≡ what_at (state_of self.now) }
    {
        match self.part {
            Part::Psat | Part::Done => What::Psat,
            Part::Version => What::Version,
            Part::HeadEnd | Part::ItemEnd | Part::TextEnd => What::Semicolon,
            Part::Item if has_linear(self.version) => What::Item2,
            Part::Item => What::Item,
            Part::QueryProb | Part::TermProb => What::Prob,
            Part::Term => What::Term,
            Part::Paren => What::Paren,
            Part::Operand => What::Formula,
            Part::Operator => What::Operator,
            Part::Relation => What::Relation,
            Part::Number | Part::First | Part::Second => What::Number,
            Part::Bracket => What::Bracket,
            Part::Comma => What::Comma,
            Part::BracketEnd => What::BracketEnd,
        }
    }

    // Whether a token opens a nesting.
    fn opens(&self, token: &Token) -> bool
        ensures { result ≡ opens self.now.part (token_of token.now) }
    {
        match self.part {
            Part::Operand => is_sign(token, Symbol::Bang) || is_sign(token, Symbol::Open),
            Part::Operator => is_sign(token, Symbol::Arrow),
            _ => false,
        }
    }

    fn depth_fault(&self, token: &Token) -> Option<ReadKind>
        ensures { result ≡ depth_fault (state_of self.now) (token_of token.now) }
    {
        if self.opens(token) && self.opened.len() >= MOST_OPEN {
            Some(ReadKind::TooDeep)
        } else {
            None
        }
    }

    // How many terms stand so far.
    fn terms_so_far(&self) -> u8
        requires few { terms_so_far self.now.linear < 256 }
        ensures { result ≡ terms_so_far self.now.linear }
    {
        match self.linear {
            None => 1,
            Some(before) => before + 1,
        }
    }

    // Whether one term more may begin.
    fn has_room(&self) -> bool
        ensures { result ≡ nat_lt (terms_so_far self.now.linear) MOST_TERMS }
    {
        match self.linear {
            None => true,
            Some(before) => before < MOST_TERMS - 1,
        }
    }

    fn terms_fault(&self, token: &Token) -> Option<ReadKind>
        ensures { result ≡ terms_fault (state_of self.now) (token_of token.now) }
    {
        if is_term_sign(token) && !self.has_room() {
            Some(ReadKind::TooManyTerms)
        } else {
            None
        }
    }

    // The greatest value of a number.
    fn greatest_value(&self) -> u32
        ensures { result ≡ greatest_value self.now.linear }
    {
        match self.linear {
            None => 1,
            Some(_) => GREATEST_NUMBER,
        }
    }

    // Why a token that is expected is refused.
    fn fault(&self, token: &Token) -> Option<ReadKind>
        ensures { result ≡ fault_at self.now.part (state_of self.now) (token_of token.now) }
    {
        match self.part {
            Part::Version => version_fault(token),
            Part::Item | Part::Term => number_fault(GREATEST_NUMBER, token),
            Part::Number | Part::First | Part::Second => number_fault(self.greatest_value(), token),
            Part::Relation => self.terms_fault(token),
            Part::Operand | Part::Operator => self.depth_fault(token),
            _ => None,
        }
    }

    /// Why a token is refused here, if it is: because it is none of the version, or else too long a
    /// word, or else isn't expected, or else is no version, a number out of its limits, or one
    /// nesting or one term too many. Behind a whole text it isn't asked.
    #[tactic(auto, unfolding(ps_text::specs::ExpectedTokens::refusal))]
    pub fn refusal(&self, token: &Token) -> Option<ReadKind>
        ensures { result ≡ refusal (state_of self.now) (token_of token.now) }
    {
        if is_foreign(self.version, token) {
            Some(ReadKind::BadByte)
        } else if is_too_long(token) {
            Some(ReadKind::NameTooLong)
        } else if !self.is_expected(token) {
            Some(ReadKind::Expected(self.what()))
        } else {
            self.fault(token)
        }
    }

    // Outside of a probability and of a linear sentence, before this part.
    fn expect(&mut self, part: Part)
        ensures { state_of self.new ≡ in_version self.old.version part }
    {
        self.relate(false, part);
        self.linear = None;
    }

    // In the relation of the same sentence, behind a `-` or not.
    fn relate(&mut self, minus: bool, part: Part)
        ensures { state_of self.new ≡ in_relation (state_of self.old) minus part }
    {
        self.part = part;
        self.query = false;
        self.given = false;
        self.opened.clear();
        self.minus = minus;
    }

    // In a linear sentence, behind so many terms.
    fn begin_term(&mut self, before: u8, part: Part)
        ensures { state_of self.new ≡ in_term self.old.version before part }
    {
        self.relate(false, part);
        self.linear = Some(before);
    }

    // In a text of this version.
    fn begin(&mut self, version: Version, part: Part)
        ensures { state_of self.new ≡ in_version version part }
    {
        self.version = version;
        self.expect(part);
    }

    // Behind an operand no `!` is open.
    fn end_nots(&mut self)
        ensures { state_of self.new ≡ nots_ended self.old }
    {
        while let Some(Opening::Not) = self.opened.top() {
            let _ = self.opened.pop();
        }
    }

    // At a `<->` or a `)` no `->` is open.
    fn end_arrows(&mut self)
        ensures { state_of self.new ≡ arrows_ended self.old }
    {
        while let Some(Opening::Arrow) = self.opened.top() {
            let _ = self.opened.pop();
        }
    }

    // Behind the first token of an item, or `end`.
    fn after_item_start(&mut self, token: &Token)
        ensures { state_of self.new ≡ after_item_start self.old.version (token_of token.now) }
    {
        if is_word(token, b"P") {
            self.expect(Part::Paren);
        } else if is_word(token, b"query") {
            self.expect(Part::QueryProb);
        } else if is_word(token, b"end") {
            self.expect(Part::TextEnd);
        } else if is_number(token) {
            self.begin_term(0, Part::TermProb);
        } else {
            self.begin_term(0, Part::Term);
        }
    }

    // Behind the sign before a term, `in` or the symbol of a relation.
    fn after_left(&mut self, token: &Token)
        requires few { HasRoom self.old.linear (token_of token.now) }
        ensures { state_of self.new ≡ after_left (state_of self.old) (token_of token.now) }
    {
        if is_term_sign(token) {
            let before = self.terms_so_far();
            self.begin_term(before, Part::Term);
        } else if is_word(token, b"in") {
            self.relate(false, Part::Bracket);
        } else {
            self.relate(false, Part::Number);
        }
    }

    fn after_operand(&mut self, token: &Token) -> Result<(), NoMemory>
        ensures ok { OnOk result (state_of self.new ≡ behind_operand self.old token.now) }
        ensures err { OnErr result (state_of self.new ≡ state_of self.old) }
    {
        match token {
            Token::Sign(Symbol::Bang) => {
                self.opened.push(Opening::Not)?;
                self.part = Part::Operand;
            }
            Token::Sign(Symbol::Open) => {
                self.opened.push(Opening::Group)?;
                self.part = Part::Operand;
            }
            _ => {
                self.end_nots();
                self.part = Part::Operator;
            }
        }
        Ok(())
    }

    // Behind a `)`.
    fn close(&mut self)
        ensures { state_of self.new ≡ closed (state_of self.old) self.old.opened }
    {
        match self.opened.pop() {
            Some(_) => {
                self.end_nots();
                self.part = Part::Operator;
            }
            None if self.query => self.expect(Part::ItemEnd),
            None => self.part = Part::Relation,
        }
    }

    fn after_operator(&mut self, token: &Token) -> Result<(), NoMemory>
        ensures ok { OnOk result (state_of self.new ≡ behind_operator self.old token.now) }
        ensures err { OnErr result (state_of self.new ≡ state_of self.old) }
    {
        match token {
            Token::Sign(Symbol::Close) => {
                self.end_arrows();
                self.close();
            }
            Token::Sign(Symbol::Arrow) => {
                self.opened.push(Opening::Arrow)?;
                self.part = Part::Operand;
            }
            Token::Sign(Symbol::DoubleArrow) => {
                self.end_arrows();
                self.part = Part::Operand;
            }
            Token::Sign(_) => self.part = Part::Operand,
            _ => {
                self.part = Part::Operand;
                self.given = true;
                self.opened.clear();
            }
        }
        Ok(())
    }

    /// Goes on behind a token that isn't refused. For want of memory nothing changes.
    #[tactic(auto, unfolding(ps_text::specs::ExpectedTokens::after), using(crate::proofs::Terms::few_terms))]
    pub fn advance(&mut self, token: &Token) -> Result<(), NoMemory>
        requires passed { refusal (state_of self.old) (token_of token.now) ≡ None }
        ensures ok { OnOk result (state_of self.new ≡ behind self.old token.now) }
        ensures err { OnErr result (state_of self.new ≡ state_of self.old) }
    {
        match self.part {
            Part::Psat => self.begin(Version::One, Part::Version),
            Part::Version => self.begin(version_of(token), Part::HeadEnd),
            Part::HeadEnd | Part::ItemEnd => self.expect(Part::Item),
            Part::Item => self.after_item_start(token),
            Part::QueryProb => {
                self.expect(Part::Paren);
                self.query = true;
            }
            Part::Term if is_number(token) => {
                self.part = Part::TermProb;
                self.opened.clear();
            }
            Part::Term | Part::TermProb => {
                self.part = Part::Paren;
                self.opened.clear();
            }
            Part::Paren => {
                self.part = Part::Operand;
                self.opened.clear();
            }
            Part::Operand => return self.after_operand(token),
            Part::Operator => return self.after_operator(token),
            Part::Relation => self.after_left(token),
            Part::Number | Part::First | Part::Second if is_sign(token, Symbol::Minus) => {
                self.relate(true, self.part);
            }
            Part::Number | Part::BracketEnd => self.expect(Part::ItemEnd),
            Part::Bracket => self.relate(false, Part::First),
            Part::First => self.relate(false, Part::Comma),
            Part::Comma => self.relate(false, Part::Second),
            Part::Second => self.relate(false, Part::BracketEnd),
            Part::TextEnd | Part::Done => self.begin(Version::One, Part::Done),
        }
        Ok(())
    }

    /// The part of the text that is next.
    pub fn part(&self) -> Part
        ensures { result ≡ (state_of self.now).part }
    {
        self.part
    }
}
