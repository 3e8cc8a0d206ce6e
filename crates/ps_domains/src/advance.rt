//! How a text over listed constants goes on.
ghost use Rattle.std.specs.Prelude.{◌≡◌, [], ◌∷◌, false, None, OnOk};
ghost use Rattle.ps_text.specs.Tokens as text;
ghost use Rattle.ps_text.specs.declared.part.Part.TheVariants as part;
ghost use Rattle.ps_lex.specs.KeptTokens.{token_of};
ghost use Rattle.ps_domains.specs.declared.domain_part.DomainPart.TheVariants as domain;
ghost use Rattle.ps_domains.specs.DomainWords.{is_quantifier};
ghost use Rattle.ps_domains.specs.DomainTokens.{after_at, after_operand, after_operator, at_part};
ghost use Rattle.ps_domains.specs.DomainTokens.{refusal, refusal_at, scopes_closed};
ghost use Rattle.ps_domains.specs.DomainTokens.{with_predicate, with_scope, with_scopes};
ghost use Rattle.ps_domains.specs.KeptStates.{GoesOn, IsTaken, after_base, after_close, after_name};
ghost use Rattle.ps_domains.specs.KeptStates.{after_open, behind, refusal_by, state_of};

use crate::declared::{Predicate, Scope};
use crate::domain_part::DomainPart;
use crate::names::copy;
use crate::reasons::letters;
use crate::state::DomainState;
use crate::words::{arity_of, is_name, is_quantifier, is_sign, is_word};
use ps_first_order::MOST_ARITY;
use ps_io::NoMemory;
use ps_lex::{Digits, Numeral, Token};
use ps_text::{Part, Symbol};

// The version that a text has in the words of version 2.
#[tactic(auto, unfolding(ps_lex::specs::KeptTokens::figures))]
fn version_two() -> Token
    ensures { token_of result ≡ text.Number (text.Whole (50 ∷ [])) }
{
    Token::Number(Numeral::Whole(Digits { count: 1, value: 2 }))
}

impl DomainState {
    // What version 2 has next takes the token.
    fn after_base(&mut self, token: &Token) -> Result<(), NoMemory>
        requires { IsTaken self.old token.now }
        ensures { OnOk result (GoesOn after_base self.old token.now self.new) }
    {
        self.base.advance(token)?;
        self.part = DomainPart::Text;
        Ok(())
    }

    // Behind the name of a predicate, which is an operand of version 2.
    fn after_predicate(&mut self, token: &Token) -> Result<(), NoMemory>
        requires { IsTaken self.old token.now }
        ensures { OnOk result (GoesOn with_predicate self.old token.now self.new) }
    {
        let is_full = self.base.refusal(&Token::Sign(Symbol::Open)).is_some();
        let name = copy(self.alloc, letters(token))?;
        self.base.advance(token)?;
        self.name = name;
        self.is_full = is_full;
        self.terms = 0;
        self.part = DomainPart::Terms;
        Ok(())
    }

    // A `(` around a formula is open from there on.
    fn open_group(&mut self, token: &Token) -> Result<(), NoMemory>
        ensures { OnOk result (GoesOn after_open self.old token.now self.new) }
    {
        if is_sign(token, Symbol::Open) {
            self.scopes.push(Scope::Group)
        } else {
            Ok(())
        }
    }

    // The last `(` is open no more.
    fn pop_scope(&mut self)
        ensures { state_of self.new ≡ with_scopes (scopes_closed self.old.scopes)
            (state_of self.old) }
    {
        match self.scopes.pop() {
            Some(_) => {}
            None => {}
        }
    }

    // At a `)` the last `(` is open no more.
    fn close_group(&mut self, token: &Token)
        ensures { GoesOn after_close self.old token.now self.new }
    {
        if is_sign(token, Symbol::Close) {
            self.pop_scope();
        }
    }

    // Behind a token in the place of an operand.
    fn after_operand(&mut self, token: &Token) -> Result<(), NoMemory>
        requires { is_quantifier (token_of token.now) ≡ false → IsTaken self.old token.now }
        ensures { OnOk result (GoesOn after_operand self.old token.now self.new) }
    {
        if is_quantifier(token) {
            self.part = DomainPart::Bound;
            return Ok(());
        }
        if is_name(token) {
            return self.after_predicate(token);
        }
        self.open_group(token)?;
        self.after_base(token)
    }

    // Behind a token that follows an operand.
    fn after_operator(&mut self, token: &Token) -> Result<(), NoMemory>
        requires { IsTaken self.old token.now }
        ensures { OnOk result (GoesOn after_operator self.old token.now self.new) }
    {
        self.after_base(token)?;
        self.close_group(token);
        Ok(())
    }

    // Behind a token at what version 2 has next.
    #[tactic(auto, using(crate::proofs::Passed::two_passes, crate::proofs::Passed::two_behind, crate::proofs::Passed::text_passed, crate::proofs::Passed::operand_passed))]
    fn after_text(&mut self, token: &Token) -> Result<(), NoMemory>
        requires { refusal_by (refusal_at domain.Text) self.old token.now ≡ None }
        ensures { OnOk result (GoesOn (after_at domain.Text) self.old token.now self.new) }
    {
        match self.base.part() {
            Part::Version => self.after_base(&version_two()),
            Part::HeadEnd => {
                self.after_base(token)?;
                self.part = DomainPart::Const;
                Ok(())
            }
            Part::Operand => self.after_operand(token),
            Part::Operator => self.after_operator(token),
            _ => self.after_base(token),
        }
    }

    // Keeps the name that is declared or bound.
    fn keep_name(&mut self, token: &Token, part: DomainPart) -> Result<(), NoMemory>
        ensures { OnOk result (GoesOn (after_name part) self.old token.now self.new) }
    {
        self.name = copy(self.alloc, letters(token))?;
        self.part = part;
        Ok(())
    }

    // One constant more.
    fn declare_constant(&mut self, token: &Token) -> Result<(), NoMemory>
        ensures { OnOk result (GoesOn (after_at domain.Constant) self.old token.now self.new) }
    {
        let name = copy(self.alloc, letters(token))?;
        self.declared.constants.push(name)?;
        self.part = DomainPart::ConstMore;
        Ok(())
    }

    // One predicate more, of the name that is declared.
    fn declare_predicate(&mut self, token: &Token) -> Result<(), NoMemory>
        ensures { OnOk result (GoesOn (after_at domain.Arity) self.old token.now self.new) }
    {
        let name = copy(self.alloc, self.name.as_slice())?;
        let arity = arity_of(token).unwrap_or(0);
        self.declared.predicates.push(Predicate { name, arity })?;
        self.part = DomainPart::ArityEnd;
        Ok(())
    }

    // Behind the `(` of a quantifier.
    fn open_scope(&mut self, token: &Token) -> Result<(), NoMemory>
        requires { IsTaken self.old token.now }
        ensures { OnOk result (GoesOn with_scope self.old token.now self.new) }
    {
        let name = copy(self.alloc, self.name.as_slice())?;
        self.scopes.push(Scope::Quantified(name))?;
        self.after_base(token)
    }

    /// Goes on behind a token that isn't refused. For want of memory only some of this may be done.
    #[tactic(auto, unfolding(crate::specs::DomainTokens::refusal, crate::specs::DomainTokens::after), using(crate::proofs::Passed::read_passed, crate::proofs::Passed::first_passed, crate::proofs::Passed::second_passed))]
    pub fn advance(&mut self, token: &Token) -> Result<(), NoMemory>
        requires passed { refusal (state_of self.old) (token_of token.now) ≡ None }
        ensures { OnOk result (state_of self.new ≡ behind self.old token.now) }
    {
        match self.part {
            DomainPart::Text => self.after_text(token)?,
            DomainPart::Const => self.part = DomainPart::Constant,
            DomainPart::Constant => self.declare_constant(token)?,
            DomainPart::ConstMore if is_sign(token, Symbol::Comma) => {
                self.part = DomainPart::Constant;
            }
            DomainPart::ConstMore | DomainPart::PredicateEnd => {
                self.part = DomainPart::Declaration;
            }
            DomainPart::Declaration if is_word(token, b"pred") => {
                self.part = DomainPart::Predicate;
            }
            DomainPart::Declaration => self.after_base(token)?,
            DomainPart::Predicate => self.keep_name(token, DomainPart::PredicateParen)?,
            DomainPart::PredicateParen => self.part = DomainPart::Arity,
            DomainPart::Arity => self.declare_predicate(token)?,
            DomainPart::ArityEnd => self.part = DomainPart::PredicateEnd,
            DomainPart::Bound => self.keep_name(token, DomainPart::BoundParen)?,
            DomainPart::BoundParen => self.open_scope(token)?,
            DomainPart::Terms if is_sign(token, Symbol::Open) => self.part = DomainPart::Term,
            DomainPart::Terms => self.after_operator(token)?,
            DomainPart::Term => {
                self.terms = self.terms.saturating_add(1).min(MOST_ARITY + 1);
                self.part = DomainPart::TermMore;
            }
            DomainPart::TermMore if is_sign(token, Symbol::Comma) => self.part = DomainPart::Term,
            DomainPart::TermMore => self.part = DomainPart::Text,
        }
        Ok(())
    }
}
