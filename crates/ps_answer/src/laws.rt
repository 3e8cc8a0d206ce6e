//! Laws about the text of answers: a call does nothing, and its clauses are the law.
ghost use Rattle.ps_answer.specs.Laws.{LinesSayOneThing, TextsDetermineAnswers, ReportsAreTexts};
ghost use Rattle.ps_answer.specs.Laws.{AnswersAreDue, DueLinesAreReports};
ghost use Rattle.ps_answer.specs.Laws.{ReportsHaveNoFault, FaultsAreSingle};
ghost use Rattle.ps_answer.specs.Laws.{WrittenLinesSayTheirItem, WrittenLinesAreReports};
ghost use Rattle.ps_answer.specs.Laws.{ShortLinesSpellTheirItem, ShortLinesAreTexts};

/// A line says one thing, whatever the size of its numbers. An answer is determined by its text,
/// where each part that is open for conflicts holds as many steps as their limit.
pub fn texts_determine_answers()
    ensures line { LinesSayOneThing }
    ensures answer { TextsDetermineAnswers }
    ensures report { ReportsAreTexts }
{}

/// What is due behind each line of an answer comes next, and behind the last line nothing is due.
/// Lines within the limits of which each is due, up to the end, are the report of an answer.
pub fn due_lines_are_answers()
    ensures due { AnswersAreDue }
    ensures answer { DueLinesAreReports }
{}

/// The text of an answer within the limits has no line at fault, and other bytes have at most one
/// first one, of one kind.
pub fn faults_are_single()
    ensures none { ReportsHaveNoFault }
    ensures one { FaultsAreSingle }
{}

/// What is written of a line within the limits says it, where no number is negative that may not
/// be. So the lines that are written of such an answer are its report, where each part that is open
/// for conflicts has as many steps as its limit.
pub fn written_lines_are_lines()
    ensures line { WrittenLinesSayTheirItem }
    ensures report { WrittenLinesAreReports }
{}

/// What is written of a line whose numbers are below 10^64 spells it, also past the limits. So the
/// lines that are written of an answer with such numbers are its text, which determines it.
pub fn short_lines_are_texts()
    ensures line { ShortLinesSpellTheirItem }
    ensures answer { ShortLinesAreTexts }
{}
