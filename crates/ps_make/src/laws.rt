//! What is read in the texts that are made. A call does nothing: its contract is the law.
ghost use Rattle.ps_make.specs.Laws.{MadeTextsSpellTheirProblem, MadeTextsSpellOneProblem};
ghost use Rattle.ps_make.specs.Laws.{MadeTextsAreCanonical};

/// All of a text that is made spells one problem, that of its items. It is that problem's canonical
/// text.
pub fn made_texts_are_read()
    ensures spell { MadeTextsSpellTheirProblem }
    ensures one { MadeTextsSpellOneProblem }
    ensures canonical { MadeTextsAreCanonical }
{}
