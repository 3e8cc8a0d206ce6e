//! Laws about the definitions: a call does nothing, and its clauses are the law.
ghost use Rattle.ps_max_commands.specs.Laws.{AnswersAreAccepted, WholeAnswersAreAccepted};
ghost use Rattle.ps_max_commands.specs.Laws.{OneCheckIsDue, OneUnreadIsDue};

/// For clauses with an answer behind them at most one output is due, and for clauses that aren't
/// read.
pub fn one_output_is_due()
    ensures check { OneCheckIsDue }
    ensures unread { OneUnreadIsDue }
{}

/// Clauses, a line feed and an answer that is due for them are accepted. The line feed may be left
/// out where there are no bytes before the answer, or they end with one.
pub fn answers_are_accepted()
    ensures behind { AnswersAreAccepted }
    ensures whole { WholeAnswersAreAccepted }
{}
