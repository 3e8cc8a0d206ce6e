//! What canonical texts tell. A call does nothing: its contract is the law.
ghost use Rattle.ps_canonical.specs.Laws.{EqualTextsAreOfEqualProblems};

/// Problems whose canonical texts are equal are equal.
pub fn equal_texts_are_of_equal_problems()
    ensures { EqualTextsAreOfEqualProblems }
{}
