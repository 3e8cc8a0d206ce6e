//! What is expected between two tokens of a text over listed constants.
ghost use Rattle.std.specs.Prelude.{◌≡◌};
ghost use Rattle.std.specs.List.{list_any};
ghost use Rattle.ps_lex.specs.KeptTokens.{token_of};
ghost use Rattle.ps_domains.specs.declared.domain_part.DomainPart.TheVariants as domain;
ghost use Rattle.ps_domains.specs.DomainTokens as expected;
ghost use Rattle.ps_domains.specs.DomainTokens.{at_start, is_taken, is_term, has_more};
ghost use Rattle.ps_domains.specs.DomainTokens.{version_refusal, predicate_fault};
ghost use Rattle.ps_domains.specs.DomainTokens.{operand_refusal, new_name_refusal};
ghost use Rattle.ps_domains.specs.DomainTokens.{new_name_fault, term_fault, more_fault};
ghost use Rattle.ps_domains.specs.DomainTokens.{term_refusal, terms_refusal, more_refusal, refusal};
ghost use Rattle.ps_domains.specs.KeptStates.{refusal_by, state_of};
ghost use Rattle.ps_domains.specs.Names.{binds};

use crate::declared::{Declared, Scope};
use crate::domain_part::DomainPart;
use crate::kind::{DomainWhat, GroundKind};
use crate::names::{has, has_more, has_predicate, is_bound};
use crate::reasons::{letters, or_else, read, unless, unless_expected, unless_sign};
use crate::words::{
    arity_of, has_underscore, is_declaring, is_name, is_number, is_quantifier, is_sign, is_three,
    is_word,
};
use ps_first_order::{MOST_CONSTANTS, MOST_PREDICATES};
use ps_io::List;
use ps_lex::{Stack, State, Token};
use ps_text::{Part, ReadKind, Symbol, What};
use std::alloc::Global;

/// The state between two tokens, which tells what is expected: what version 2 has next, where a
/// predicate with its terms is one operand and a quantifier with its variable is nothing; the part
/// that is next; what is declared; each `(` of the formula that is open, with the variable that it
/// binds; the name that is declared, bound or written last; and of the last predicate how many of
/// its terms stand, and whether no more may be open where it stands.
#[derive(Drop)]
pub struct DomainState {
    pub(crate) base: State,
    pub(crate) part: DomainPart,
    pub(crate) declared: Declared,
    pub(crate) scopes: Stack<Scope>,
    pub(crate) name: List<u8>,
    pub(crate) terms: u8,
    pub(crate) is_full: bool,
    pub(crate) alloc: Global,
}

impl DomainState {
    /// What is expected at the start of a text.
    pub fn start(alloc: Global) -> DomainState
        ensures { state_of result ≡ at_start }
    {
        DomainState {
            base: State::start(alloc),
            part: DomainPart::Text,
            declared: Declared {
                constants: List::new(alloc),
                predicates: List::new(alloc),
            },
            scopes: Stack::new(alloc),
            name: List::new(alloc),
            terms: 0,
            is_full: false,
            alloc,
        }
    }

    // Whether the predicate that is written takes more terms than so many.
    fn has_more(&self, count: u8) -> bool
        ensures { result ≡ has_more (state_of self.now) count }
    {
        let predicates = self.declared.predicates.as_slice();
        has_more(predicates, self.name.as_slice(), count)
    }

    // Whether a variable of this name is bound.
    fn is_bound(&self, name: &[u8]) -> bool
        ensures { result ≡ list_any (binds name.now) (state_of self.now).scopes }
    {
        is_bound(self.scopes.items(), name)
    }

    // Whether a constant, a predicate or a variable that is bound has this name.
    fn is_taken(&self, name: &[u8]) -> bool
        ensures { result ≡ is_taken (state_of self.now) name.now }
    {
        has(self.declared.constants.as_slice(), name)
            || has_predicate(self.declared.predicates.as_slice(), name)
            || self.is_bound(name)
    }

    // Whether a constant or a variable that is bound has this name.
    fn is_term(&self, name: &[u8]) -> bool
        ensures { result ≡ is_term (state_of self.now) name.now }
    {
        has(self.declared.constants.as_slice(), name) || self.is_bound(name)
    }

    // Why a token isn't the version.
    fn version_refusal(&self, token: &Token) -> Option<GroundKind>
        ensures { result ≡ version_refusal (state_of self.now) (token_of token.now) }
    {
        if is_three(token) {
            return None;
        }
        or_else(
            read(self.base.refusal(token)),
            Some(GroundKind::Read(ReadKind::VersionUnknown)),
        )
    }

    // Why a name is no predicate's.
    fn predicate_fault(&self, token: &Token) -> Option<GroundKind>
        ensures { result ≡ predicate_fault (state_of self.now) (token_of token.now) }
    {
        if !is_name(token) {
            return None;
        }
        let name = letters(token);
        if has_underscore(name) {
            return Some(GroundKind::BadName);
        }
        unless(
            has_predicate(self.declared.predicates.as_slice(), name),
            GroundKind::UnknownName,
        )
    }

    // Why no operand begins with a token.
    fn operand_refusal(&self, token: &Token) -> Option<GroundKind>
        ensures { result ≡ operand_refusal (state_of self.now) (token_of token.now) }
    {
        if is_quantifier(token) {
            return None;
        }
        if is_declaring(token) {
            return Some(GroundKind::Read(ReadKind::Expected(What::Formula)));
        }
        or_else(read(self.base.refusal(token)), self.predicate_fault(token))
    }

    // Why a token is refused at what version 2 has next.
    fn text_refusal(&self, token: &Token) -> Option<GroundKind>
        ensures { result ≡ refusal_by (expected.refusal_at domain.Text) self.now token.now }
    {
        match self.base.part() {
            Part::Version => self.version_refusal(token),
            Part::Operand => self.operand_refusal(token),
            _ => read(self.base.refusal(token)),
        }
    }

    // What is wrong with a name that is to be new.
    fn new_name_fault(&self, name: &[u8]) -> Option<GroundKind>
        ensures { result ≡ new_name_fault (state_of self.now) name.now }
    {
        if has_underscore(name) {
            Some(GroundKind::BadName)
        } else {
            unless(!self.is_taken(name), GroundKind::NameTaken)
        }
    }

    // Why no name that is new stands there.
    fn new_name_refusal(&self, token: &Token) -> Option<GroundKind>
        ensures { result ≡ new_name_refusal (state_of self.now) (token_of token.now) }
    {
        let kind = GroundKind::Expected(DomainWhat::Name);
        or_else(
            unless_expected(is_name(token), kind, token),
            self.new_name_fault(letters(token)),
        )
    }

    // What is wrong with the name of a term.
    fn term_fault(&self, name: &[u8]) -> Option<GroundKind>
        ensures { result ≡ term_fault (state_of self.now) name.now }
    {
        if has_underscore(name) {
            Some(GroundKind::BadName)
        } else {
            unless(self.is_term(name), GroundKind::UnknownName)
        }
    }

    // Why no term stands there.
    fn term_refusal(&self, token: &Token) -> Option<GroundKind>
        ensures { result ≡ term_refusal (state_of self.now) (token_of token.now) }
    {
        let kind = GroundKind::Expected(DomainWhat::Name);
        or_else(
            unless_expected(is_name(token), kind, token),
            self.term_fault(letters(token)),
        )
    }

    // Why a token is refused behind the name of a predicate.
    fn terms_refusal(&self, token: &Token) -> Option<GroundKind>
        ensures { result ≡ terms_refusal (state_of self.now) (token_of token.now) }
    {
        if is_sign(token, Symbol::Open) {
            or_else(
                unless(!self.is_full, GroundKind::Read(ReadKind::TooDeep)),
                unless(self.has_more(0), GroundKind::WrongCount),
            )
        } else {
            or_else(
                read(self.base.refusal(token)),
                unless(!self.has_more(0), GroundKind::WrongCount),
            )
        }
    }

    // What is wrong with the number of terms so far, where a further one follows or none.
    fn more_fault(&self, goes_on: bool) -> Option<GroundKind>
        ensures { result ≡ more_fault (state_of self.now) goes_on }
    {
        if goes_on {
            unless(self.has_more(self.terms), GroundKind::WrongCount)
        } else {
            unless(!self.has_more(self.terms), GroundKind::WrongCount)
        }
    }

    // Why a token is refused behind a term.
    fn more_refusal(&self, token: &Token) -> Option<GroundKind>
        ensures { result ≡ more_refusal (state_of self.now) (token_of token.now) }
    {
        let kind = GroundKind::Expected(DomainWhat::ParenEnd);
        or_else(
            unless_expected(
                is_sign(token, Symbol::Comma) || is_sign(token, Symbol::Close),
                kind,
                token,
            ),
            self.more_fault(is_sign(token, Symbol::Comma)),
        )
    }

    // Why a token is refused in a declaration.
    fn declaration_refusal(&self, token: &Token) -> Option<GroundKind>
        ensures { result ≡ refusal_by (expected.refusal_at domain.Declaration) self.now token.now }
    {
        if is_word(token, b"pred") {
            None
        } else {
            read(self.base.refusal(token))
        }
    }

    // Why `const` isn't there.
    fn const_refusal(&self, token: &Token) -> Option<GroundKind>
        ensures { result ≡ refusal_by (expected.refusal_at domain.Const) self.now token.now }
    {
        let kind = GroundKind::Expected(DomainWhat::Const);
        unless_expected(is_word(token, b"const"), kind, token)
    }

    // Why no constant is declared.
    fn constant_refusal(&self, token: &Token) -> Option<GroundKind>
        ensures { result ≡ refusal_by (expected.refusal_at domain.Constant) self.now token.now }
    {
        let is_room = self.declared.constants.len() < MOST_CONSTANTS;
        or_else(
            self.new_name_refusal(token),
            unless(is_room, GroundKind::TooManyNames),
        )
    }

    // Why a token is refused behind a constant that is declared.
    fn more_constants_refusal(&self, token: &Token) -> Option<GroundKind>
        ensures { result ≡ refusal_by (expected.refusal_at domain.ConstMore) self.now token.now }
    {
        let is_expected = is_sign(token, Symbol::Comma) || is_sign(token, Symbol::Semicolon);
        let kind = GroundKind::Expected(DomainWhat::ConstMore);
        unless_expected(is_expected, kind, token)
    }

    // Why no predicate is declared.
    fn predicate_refusal(&self, token: &Token) -> Option<GroundKind>
        ensures { result ≡ refusal_by (expected.refusal_at domain.Predicate) self.now token.now }
    {
        let is_room = self.declared.predicates.len() < MOST_PREDICATES;
        or_else(
            self.new_name_refusal(token),
            unless(is_room, GroundKind::TooManyNames),
        )
    }

    // Why no arity stands there.
    fn arity_refusal(&self, token: &Token) -> Option<GroundKind>
        ensures { result ≡ refusal_by (expected.refusal_at domain.Arity) self.now token.now }
    {
        let kind = GroundKind::Expected(DomainWhat::Arity);
        or_else(
            unless_expected(is_number(token), kind, token),
            unless(arity_of(token).is_some(), GroundKind::BadArity),
        )
    }

    // Why no `)` stands behind an arity.
    fn arity_end_refusal(&self, token: &Token) -> Option<GroundKind>
        ensures { result ≡ refusal_by (expected.refusal_at domain.ArityEnd) self.now token.now }
    {
        let kind = GroundKind::Expected(DomainWhat::ParenEnd);
        unless_expected(is_sign(token, Symbol::Close), kind, token)
    }

    // Why no `(` stands behind a variable that is bound.
    fn scope_refusal(&self, token: &Token) -> Option<GroundKind>
        ensures { result ≡ refusal_by (expected.refusal_at domain.BoundParen) self.now token.now }
    {
        or_else(
            unless_sign(is_sign(token, Symbol::Open), What::Paren, token),
            read(self.base.refusal(token)),
        )
    }

    /// Why a token is refused here, if it is: what version 2 is refused for comes first, and then
    /// what is wrong with a name, with an arity and with a number of terms. Behind a whole text it
    /// isn't asked.
    #[tactic(auto, unfolding(crate::specs::DomainTokens::refusal))]
    pub fn refusal(&self, token: &Token) -> Option<GroundKind>
        ensures { result ≡ refusal (state_of self.now) (token_of token.now) }
    {
        match self.part {
            DomainPart::Text => self.text_refusal(token),
            DomainPart::Const => self.const_refusal(token),
            DomainPart::Constant => self.constant_refusal(token),
            DomainPart::ConstMore => self.more_constants_refusal(token),
            DomainPart::Declaration => self.declaration_refusal(token),
            DomainPart::Predicate => self.predicate_refusal(token),
            DomainPart::PredicateParen => {
                unless_sign(is_sign(token, Symbol::Open), What::Paren, token)
            }
            DomainPart::Arity => self.arity_refusal(token),
            DomainPart::ArityEnd => self.arity_end_refusal(token),
            DomainPart::PredicateEnd => {
                unless_sign(is_sign(token, Symbol::Semicolon), What::Semicolon, token)
            }
            DomainPart::Bound => self.new_name_refusal(token),
            DomainPart::BoundParen => self.scope_refusal(token),
            DomainPart::Terms => self.terms_refusal(token),
            DomainPart::Term => self.term_refusal(token),
            DomainPart::TermMore => self.more_refusal(token),
        }
    }

    /// The part of the text that is next.
    pub fn part(&self) -> DomainPart
        ensures { result ≡ (state_of self.now).part }
    {
        self.part
    }

    /// The part that version 2 has next.
    pub fn base_part(&self) -> Part
        ensures { result ≡ (state_of self.now).base.part }
    {
        self.base.part()
    }

    /// What is declared.
    pub fn declarations(&self) -> &Declared
        ensures constants { result.now.constants ≡ (state_of self.now).constants }
        ensures predicates { result.now.predicates ≡ (state_of self.now).predicates }
    {
        &self.declared
    }

    /// What is declared, once no token is left.
    pub fn into_declared(self) -> Declared
        ensures constants { result.constants ≡ (state_of self).constants }
        ensures predicates { result.predicates ≡ (state_of self).predicates }
    {
        self.declared
    }
}
