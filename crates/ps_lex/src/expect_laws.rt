//! What is kept of a token is enough to judge it: a call does nothing, and its clauses are the law.
ghost use Rattle.std.specs.Prelude.{◌≡◌, None};
ghost use Rattle.ps_text.specs.Tokens.{Token, IsToken};
ghost use Rattle.ps_text.specs.ExpectedTokens.{State, refusal};
ghost use Rattle.ps_lex.specs.KeptTokens.{IsRefusedAlike, IsPassedAlike};

/// A lexer keeps the first bytes of a word, and of digits their count and value up to where they no
/// longer count. What it keeps of a token is refused for the same reason as the token, or as it is
/// refused nowhere, and then the same is expected behind both.
pub fn kept_tokens_are_judged()
    ensures refused { (s : State) (t : Token) → IsToken t → IsRefusedAlike s t }
    ensures passed { (s : State) (t : Token) → refusal s t ≡ None → IsPassedAlike s t }
{}
