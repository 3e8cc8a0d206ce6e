//! Which tokens are expected in texts over listed constants, and why others are refused.
#![tactic(auto)]

mod advance;
mod declared;
mod domain_part;
mod kind;
mod lexed;
mod names;
mod reasons;
mod state;
mod token_laws;
mod words;

pub use declared::{Declared, Predicate, Scope};
pub use domain_part::DomainPart;
pub use kind::{DomainWhat, GroundKind};
pub use lexed::{LexedText, PlacedToken, lex};
pub use state::DomainState;
pub use token_laws::kept_tokens_are_judged;
