//! The law that answers can be written.

ghost use Rattle.ps_query.specs.Laws.{AnswersAreWithin, AnswersAreShort, AnswersAreReports};
ghost use Rattle.ps_query.specs.Laws.{AnswersAreTexts};

/// What a run answers is within the limits of a report, where fewer than a million pivots were
/// allowed or nothing is open. Each of its lines is short enough to be written, and then what is
/// written is a report of the answer. In any case what is written is the text of the answer, and
/// that of no other.
pub fn answers_are_reported()
    ensures within { AnswersAreWithin }
    ensures short { AnswersAreShort }
    ensures reports { AnswersAreReports }
    ensures texts { AnswersAreTexts }
{}
