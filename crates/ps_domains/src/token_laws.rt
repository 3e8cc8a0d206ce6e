//! What is kept of a token is enough to judge it: a call does nothing, and its clauses are the law.
ghost use Rattle.std.specs.Prelude.{◌≡◌, None};
ghost use Rattle.ps_text.specs.Tokens.{Token, IsToken};
ghost use Rattle.ps_domains.specs.DomainTokens.{State, refusal};
ghost use Rattle.ps_domains.specs.KeptStates.{IsRefusedAlike, IsPassedAlike};

/// What a lexer keeps of a token is refused for the same reason as the token, or as it is refused
/// nowhere, and then the same is expected behind both.
pub fn kept_tokens_are_judged()
    ensures refused { (s : State) (t : Token) → IsToken t → IsRefusedAlike s t }
    ensures passed { (s : State) (t : Token) → IsToken t → refusal s t ≡ None → IsPassedAlike s t }
{}
