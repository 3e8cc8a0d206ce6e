//! Items as they are parsed.
ghost use Rattle.std.specs.Prelude.{◌≡◌, ◌<◌, [], length, OnOk, true, false};
ghost use Rattle.ps_text.specs.declared.part.Part.TheVariants.{Number, Second};
ghost use Rattle.ps_problem.specs.declared.limits.TheConstants.{MOST_DRAFTED};
ghost use Rattle.ps_text.specs.Grammar.{IsWeight};
ghost use Rattle.ps_text.specs.PartialParses.{number_in};
ghost use Rattle.ps_lex.specs.KeptTokens.{token_of};
ghost use Rattle.ps_read.specs.Pending.{HaveAll, IsEndable};
ghost use Rattle.ps_read.specs.Machine.{formula_ended, asked, operator_taken};
ghost use Rattle.ps_read.specs.Machine.{at_first, given_taken, side_in, item_begun, behind_terms};
ghost use Rattle.ps_read.specs.Machine.{term_taken, relation_taken, number_taken, least_taken};
ghost use Rattle.ps_read.specs.Machine.{most_taken, signed, value_in, taken_at};
ghost use Rattle.ps_read.specs.Ready.{HasRoom, HasDraftedFormulas, IsWhole, MayClose, MayEnd};
ghost use Rattle.ps_read.specs.Ready.{MayBeStated, MayBeStatedBy, MayBeTaken};
ghost use Rattle.ps_read.specs.Kept.{draft_of, work_of, Closes, GoesOn, States};

use crate::formula_parser::FormulaParser;
use crate::item_so_far::ItemSoFar;
use crate::operator::Operator;
use crate::value::{Value, size};
use ps_io::NoMemory;
use ps_lex::Token;
use ps_problem::{Draft, Side, Signed, Term};
use ps_text::{Part, Symbol};
use std::alloc::Global;

/// Parses items into a draft.
#[derive(Drop)]
pub(crate) struct ItemParser {
    pub(crate) formulas: FormulaParser,
    pub(crate) item: ItemSoFar,
    // The terms of a linear sentence before its last one.
    pub(crate) terms: Vec<Term>,
}

// The side of a relation; an interval is at least its least value.
fn side(token: &Token) -> Side
    ensures { result ≡ side_in (token_of token.now) }
{
    match token {
        Token::Sign(Symbol::Equals) => Side::Exactly,
        Token::Sign(Symbol::LessEquals) => Side::AtMost,
        _ => Side::AtLeast,
    }
}

impl ItemParser {
    /// A parser of items into a new draft.
    pub(crate) fn new(alloc: Global) -> ItemParser
        ensures { work_of result ≡ at_first.work }
    {
        ItemParser {
            formulas: FormulaParser::new(alloc, Draft::new(alloc)),
            item: ItemSoFar::none(),
            terms: Vec::new(alloc),
        }
    }

    // Ends the formula that stands open.
    fn end_formula(&mut self) -> Result<(), NoMemory>
        requires formula { IsEndable (draft_of self.old.formulas) }
        requires whole { (work_of self.old).pending.operators ≡ [] }
        requires room { HasRoom (work_of self.old) }
        ensures { OnOk result (work_of self.new ≡ formula_ended (work_of self.old)) }
    {
        let number = self.formulas.end()?;
        if self.item.conditional {
            self.item.given = Some(number);
        } else {
            self.item.formula = number;
            self.item.given = None;
        }
        Ok(())
    }

    // Asks for the item's probability.
    fn query(&mut self) -> Result<(), NoMemory>
        requires formulas { HasDraftedFormulas (work_of self.old) }
        requires room { length (draft_of self.old.formulas).items < MOST_DRAFTED }
        ensures { OnOk result (work_of self.new ≡ asked (work_of self.old)) }
    {
        let ItemSoFar { formula, given, .. } = self.item;
        self.formulas.draft.query(formula, given)
    }

    // At a `)`.
    fn close(&mut self) -> Result<(), NoMemory>
        requires operands { HaveAll (work_of self.old).pending }
        requires end { MayClose (work_of self.old) }
        requires room { HasRoom (work_of self.old) }
        ensures { OnOk result (Closes self.old self.new) }
    {
        if self.formulas.close()? {
            return Ok(());
        }
        self.end_formula()?;
        if self.item.query {
            self.query()?;
        }
        Ok(())
    }

    // Takes a token behind an operand.
    fn operator(&mut self, token: &Token) -> Result<(), NoMemory>
        requires operands { HaveAll (work_of self.old).pending }
        requires end { MayEnd (work_of self.old) (token_of token.now) }
        requires room { HasRoom (work_of self.old) }
        ensures { OnOk result
            (work_of self.new ≡ operator_taken (work_of self.old) (token_of token.now)) }
    {
        match token {
            Token::Sign(Symbol::Close) => self.close(),
            Token::Sign(Symbol::Ampersand) => {
                self.formulas.connective(Operator::And, Operator::And)
            }
            Token::Sign(Symbol::Bar) => self.formulas.connective(Operator::Or, Operator::Or),
            Token::Sign(Symbol::Arrow) => {
                self.formulas.connective(Operator::Or, Operator::Implies)
            }
            Token::Sign(Symbol::DoubleArrow) => {
                self.formulas.connective(Operator::Iff, Operator::Iff)
            }
            _ => self.take_given(),
        }
    }

    // At a `given`.
    fn take_given(&mut self) -> Result<(), NoMemory>
        requires operands { HaveAll (work_of self.old).pending }
        requires end { IsWhole (work_of self.old) }
        requires room { HasRoom (work_of self.old) }
        ensures { OnOk result (work_of self.new ≡ given_taken (work_of self.old)) }
    {
        self.formulas.reduce(Operator::Iff)?;
        self.end_formula()?;
        self.item.conditional = true;
        Ok(())
    }

    // At the first token of an item.
    fn begin(&mut self, token: &Token)
        requires { IsWeight (number_in (token_of token.now)) }
        ensures { work_of self.new ≡ item_begun (work_of self.old) (token_of token.now) }
    {
        self.item.query = false;
        match token {
            Token::Word(_) => self.item.linear = false,
            Token::Number(_) => {
                self.begin_linear(false);
                self.item.coefficient = Value::of(token).with_sign(false);
            }
            Token::Sign(_) => self.begin_linear(true),
        }
    }

    // A linear sentence begins, with a `-` or none.
    fn begin_linear(&mut self, minus: bool)
        requires { (work_of self.old).item.query ≡ false }
        ensures { work_of self.new ≡ behind_terms (work_of self.old) [] minus }
    {
        self.terms.clear();
        self.item.linear = true;
        self.item.minus = minus;
    }

    // At a coefficient, or the `P` of a term without one.
    fn take_coefficient(&mut self, token: &Token)
        requires { IsWeight (number_in (token_of token.now)) }
        ensures { work_of self.new ≡ term_taken (work_of self.old) (token_of token.now) }
    {
        let value = match token {
            Token::Number(_) => Value::of(token),
            _ => Value::one(),
        };
        self.item.coefficient = value.with_sign(self.item.minus);
    }

    // The left side goes on with a term behind a sign.
    fn begin_term(&mut self, minus: bool) -> Result<(), NoMemory>
        ensures { OnOk result (GoesOn minus self.old self.new) }
    {
        if self.item.linear {
            self.terms.push(self.item.last_term())?;
        } else {
            self.terms.clear();
            self.terms.push(self.item.only_term())?;
        }
        self.item.query = false;
        self.item.linear = true;
        self.item.minus = minus;
        Ok(())
    }

    // Behind a left side.
    fn relation(&mut self, token: &Token) -> Result<(), NoMemory>
        ensures { OnOk result
            (work_of self.new ≡ relation_taken (work_of self.old) (token_of token.now)) }
    {
        match token {
            Token::Sign(Symbol::Plus) => self.begin_term(false),
            Token::Sign(Symbol::Minus) => self.begin_term(true),
            _ => {
                self.item.side = side(token);
                self.item.minus = false;
                Ok(())
            }
        }
    }

    // The value of a number behind a `-` or none.
    fn value(&self, token: &Token) -> Signed
        requires { IsWeight (number_in (token_of token.now)) }
        ensures { result ≡ signed (work_of self.now).item.minus (value_in (token_of token.now)) }
    {
        Value::of(token).with_sign(self.item.minus)
    }

    // At the number of a relation, or a `-` before it.
    fn number(&mut self, token: &Token) -> Result<(), NoMemory>
        requires token { MayBeTaken Number (work_of self.old) (token_of token.now) }
        requires room { HasRoom (work_of self.old) }
        ensures { OnOk result
            (work_of self.new ≡ number_taken (work_of self.old) (token_of token.now)) }
    {
        match token {
            Token::Number(_) => self.sentence(self.value(token), None),
            _ => {
                self.item.minus = true;
                Ok(())
            }
        }
    }

    // At the least number of an interval, or a `-` before it.
    fn least(&mut self, token: &Token)
        requires { IsWeight (number_in (token_of token.now)) }
        ensures { work_of self.new ≡ least_taken (work_of self.old) (token_of token.now) }
    {
        match token {
            Token::Number(_) => {
                self.item.least = self.value(token);
                self.item.minus = false;
            }
            _ => self.item.minus = true,
        }
    }

    // At the greatest number of an interval, or a `-` before it.
    fn most(&mut self, token: &Token) -> Result<(), NoMemory>
        requires token { MayBeTaken Second (work_of self.old) (token_of token.now) }
        requires room { HasRoom (work_of self.old) }
        ensures { OnOk result
            (work_of self.new ≡ most_taken (work_of self.old) (token_of token.now)) }
    {
        match token {
            Token::Number(_) => self.sentence(self.item.least, Some(self.value(token))),
            _ => {
                self.item.minus = true;
                Ok(())
            }
        }
    }

    // States the item with this value and perhaps an upper one.
    fn sentence(&mut self, value: Signed, upper: Option<Signed>) -> Result<(), NoMemory>
        requires values { MayBeStated (work_of self.old) value upper }
        requires room { HasRoom (work_of self.old) }
        ensures { OnOk result (States value upper self.old self.new) }
    {
        if self.item.linear {
            self.sum(value, upper)
        } else {
            self.plain(value, upper)
        }
    }

    // States a plain sentence.
    fn plain(&mut self, value: Signed, upper: Option<Signed>) -> Result<(), NoMemory>
        requires plain { self.old.item.linear ≡ false }
        requires values { MayBeStatedBy false (work_of self.old) value upper }
        requires room { HasRoom (work_of self.old) }
        ensures { OnOk result (States value upper self.old self.new) }
    {
        let ItemSoFar {
            formula,
            given,
            side,
            ..
        } = self.item;
        let (num, den) = size(value);
        let upper = match upper {
            Some(upper) => Some(size(upper)),
            None => None,
        };
        self.formulas
            .draft
            .sentence(formula, given, side, num, den, upper)
    }

    // States a linear sentence.
    fn sum(&mut self, value: Signed, upper: Option<Signed>) -> Result<(), NoMemory>
        requires linear { self.old.item.linear ≡ true }
        requires values { MayBeStatedBy true (work_of self.old) value upper }
        requires room { HasRoom (work_of self.old) }
        ensures { OnOk result (States value upper self.old self.new) }
    {
        self.terms.push(self.item.last_term())?;
        self.formulas
            .draft
            .linear(&self.terms, self.item.side, value, upper)
    }

    /// Takes a token at this part of a text. For want of memory only some of this may be done.
    pub(crate) fn take(&mut self, part: Part, token: &Token) -> Result<(), NoMemory>
        requires token { MayBeTaken part (work_of self.old) (token_of token.now) }
        requires room { HasRoom (work_of self.old) }
        ensures { OnOk result
            (work_of self.new ≡ taken_at part (work_of self.old) (token_of token.now)) }
    {
        match part {
            Part::Item => self.begin(token),
            Part::QueryProb => self.item.query = true,
            Part::Term => self.take_coefficient(token),
            Part::Paren => self.item.conditional = false,
            Part::Operand => self.formulas.operand(token)?,
            Part::Operator => self.operator(token)?,
            Part::Relation => self.relation(token)?,
            Part::Number => self.number(token)?,
            Part::First => self.least(token),
            Part::Second => self.most(token)?,
            _ => {}
        }
        Ok(())
    }
}
