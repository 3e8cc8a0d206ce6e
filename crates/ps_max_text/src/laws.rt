//! Laws about the text of answers: a call does nothing, and its clauses are the law.
ghost use Rattle.ps_max_text.specs.Laws.{AnswersAreShort, FaultsAreSingle};
ghost use Rattle.ps_max_text.specs.Laws.{TextsDetermineAnswers, TextsHaveNoFault};

/// Each line of an answer within the limits is short enough to be written.
pub fn answers_are_short()
    ensures { AnswersAreShort }
{}

/// What is written of an answer within the limits is read as that answer: no other within the
/// limits has its text, and no line of it is at fault. Other bytes have at most one first line at
/// fault, of one kind.
pub fn texts_are_read_back()
    ensures answer { TextsDetermineAnswers }
    ensures none { TextsHaveNoFault }
    ensures one { FaultsAreSingle }
{}
