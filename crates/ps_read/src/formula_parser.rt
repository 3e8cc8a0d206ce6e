//! Formulas as they are parsed.
ghost use Rattle.std.specs.Prelude.{◌≡◌, ◌≤◌, ◌<◌, [], length, OnOk, OnErr, IfOk};
ghost use Rattle.ps_meaning.specs.Names.{IsName};
ghost use Rattle.ps_problem.specs.declared.limits.TheConstants.{MOST_DRAFTED};
ghost use Rattle.ps_problem.specs.Drafts.{with_formula};
ghost use Rattle.ps_lex.specs.KeptTokens.{token_of};
ghost use Rattle.ps_read.specs.Pending.{binding, reducible, waiting, HaveFirst, HaveAll};
ghost use Rattle.ps_read.specs.Pending.{is_grouped, group_closed, IsEndable};
ghost use Rattle.ps_read.specs.Machine.{with_atom, with_constant, with_word};
ghost use Rattle.ps_read.specs.Ready.{IsOperand, IsOperandWord};
ghost use Rattle.ps_read.specs.Kept.{pending_of, draft_of, EndsOperand};
ghost use Rattle.ps_read.specs.Kept.{Reduces, TakesOperand, Connects};

use crate::operator::Operator;
use ps_io::NoMemory;
use ps_lex::{Stack, Token};
use ps_problem::{Draft, Mark};
use ps_text::Symbol;
use std::alloc::Global;

/// Parses formulas into a draft: the operators that wait for their last operand, whose first
/// operands stand open in the draft.
#[derive(Drop)]
pub(crate) struct FormulaParser {
    pub(crate) operators: Stack<Operator>,
    pub(crate) draft: Draft,
}

impl FormulaParser {
    /// A parser of formulas into this draft.
    pub(crate) fn new(alloc: Global, draft: Draft) -> FormulaParser
        ensures operators { (pending_of result).operators ≡ [] }
        ensures draft { draft_of result ≡ draft }
    {
        FormulaParser {
            operators: Stack::new(alloc),
            draft,
        }
    }

    /// The operator waits for its last operand.
    pub(crate) fn wait(&mut self, operator: Operator) -> Result<(), NoMemory>
        ensures { OnOk result (pending_of self.new ≡ waiting operator (pending_of self.old)) }
    {
        self.operators.push(operator)
    }

    // The operator that waits last, if it binds at least so tightly.
    fn reducible(&self, level: u8) -> Option<Operator>
        ensures { result ≡ reducible level self.now.operators }
    {
        match self.operators.top() {
            Some(operator) if level <= operator.binding() => Some(*operator),
            _ => None,
        }
    }

    /// Marks each operator that waits last and binds at least as tightly as this one. For want of
    /// memory only some of them may be marked.
    pub(crate) fn reduce(&mut self, operator: Operator) -> Result<(), NoMemory>
        requires operator { 1 ≤ binding operator }
        requires operands { HaveAll (pending_of self.old) }
        ensures reduced { OnOk result (Reduces operator self.old self.new) }
        ensures operands { OnOk result (HaveAll (pending_of self.new)) }
    {
        let level = operator.binding();
        while let Some(last) = self.reducible(level) {
            self.draft.mark(last.mark())?;
            let _ = self.operators.pop();
        }
        Ok(())
    }

    /// `true` or `false` is the next operand, and each `!` before it is marked. For want of memory
    /// only some of this may be done.
    #[tactic(auto, using(crate::proofs::Marking::constant_there))]
    pub(crate) fn constant(&mut self, value: bool) -> Result<(), NoMemory>
        requires operands { HaveFirst (pending_of self.old) }
        ensures constant { OnOk result
            (EndsOperand self.old self.new (λ d. with_constant d value)) }
        ensures operands { OnOk result (HaveAll (pending_of self.new)) }
    {
        if value {
            self.draft.mark(Mark::True)?;
        } else {
            self.draft.mark(Mark::False)?;
        }
        self.reduce(Operator::Not)
    }

    /// An atom is the next operand, and each `!` before it is marked. For want of memory only
    /// some of this may be done.
    pub(crate) fn atom(&mut self, name: &[u8]) -> Result<(), NoMemory>
        requires name { IsName name.now }
        requires room { length (draft_of self.old).names < MOST_DRAFTED }
        requires operands { HaveFirst (pending_of self.old) }
        ensures atom { OnOk result
            (EndsOperand self.old self.new (λ d. with_atom d name.now)) }
        ensures operands { OnOk result (HaveAll (pending_of self.new)) }
    {
        let number = self.draft.name(name)?;
        self.draft.mark(Mark::Name(number))?;
        self.reduce(Operator::Not)
    }

    /// Takes a token in the place of an operand: `!` or `(`, which waits, or a word, an operand.
    /// For want of memory only some of this may be done.
    pub(crate) fn operand(&mut self, token: &Token) -> Result<(), NoMemory>
        requires operand { IsOperand (token_of token.now) }
        requires room { length (draft_of self.old).names < MOST_DRAFTED }
        requires operands { HaveFirst (pending_of self.old) }
        ensures { OnOk result (TakesOperand (token_of token.now) self.old self.new) }
    {
        match token {
            Token::Sign(Symbol::Bang) => self.wait(Operator::Not),
            Token::Sign(_) => self.wait(Operator::Group),
            Token::Word(letters) => self.word(letters.as_slice()),
            Token::Number(_) => self.constant(true),
        }
    }

    fn word(&mut self, letters: &[u8]) -> Result<(), NoMemory>
        requires word { IsOperandWord letters.now }
        requires room { length (draft_of self.old).names < MOST_DRAFTED }
        requires operands { HaveFirst (pending_of self.old) }
        ensures { OnOk result
            (EndsOperand self.old self.new (λ d. with_word d letters.now)) }
    {
        if letters == b"true".as_slice() {
            self.constant(true)
        } else if letters == b"false".as_slice() {
            self.constant(false)
        } else {
            self.atom(letters)
        }
    }

    /// A connective: what waits and binds at least as tightly as `level` is marked, and the
    /// operator waits for its last operand. For want of memory only some of this may be done.
    pub(crate) fn connective(&mut self, level: Operator, operator: Operator) -> Result<(), NoMemory>
        requires level { 1 ≤ binding level }
        requires operands { HaveAll (pending_of self.old) }
        ensures { OnOk result (Connects level operator self.old self.new) }
    {
        self.reduce(level)?;
        self.wait(operator)
    }

    /// A `)`: marks all that waits behind the last `(`, and each `!` before that; else, where no
    /// `(` is open, all that waits. Answers whether one was open. For want of memory only some of
    /// this may be done.
    pub(crate) fn close(&mut self) -> Result<bool, NoMemory>
        requires operands { HaveAll (pending_of self.old) }
        ensures grouped { IfOk result (λ r. r ≡ is_grouped (pending_of self.old)) }
        ensures closed { OnOk result (pending_of self.new ≡ group_closed (pending_of self.old)) }
    {
        self.reduce(Operator::Iff)?;
        match self.operators.pop() {
            Some(_) => {
                self.reduce(Operator::Not)?;
                Ok(true)
            }
            None => Ok(false),
        }
    }

    /// Ends the formula that stands open, and gives its number, from 0. For want of memory nothing
    /// changes.
    pub(crate) fn end(&mut self) -> Result<u32, NoMemory>
        requires formula { IsEndable (draft_of self.old) }
        requires room { length (draft_of self.old).formulas < MOST_DRAFTED }
        ensures number { IfOk result (λ n. n ≡ length (draft_of self.old).formulas) }
        ensures operators { (pending_of self.new).operators ≡ (pending_of self.old).operators }
        ensures draft { OnOk result (draft_of self.new ≡ with_formula (draft_of self.old)) }
        ensures unchanged { OnErr result (draft_of self.new ≡ draft_of self.old) }
    {
        self.draft.end_formula()
    }
}
