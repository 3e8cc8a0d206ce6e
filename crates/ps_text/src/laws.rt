//! Laws about the definitions: a call does nothing, and its clauses are the law.
ghost use Rattle.std.specs.Prelude.{◌≡◌, ◌↔◌, List, ℕ, []};
ghost use Rattle.ps_text.specs.Tokens.{Token};
ghost use Rattle.ps_text.specs.Pieces.{Piece, Cut, Cuts, IsBare, tokens};
ghost use Rattle.ps_text.specs.declared.version.Version.{Version};
ghost use Rattle.ps_text.specs.Grammar.{ItemSyntax, TextSyntax, AreWellFormedItems, IsDerived};
ghost use Rattle.ps_text.specs.Grammar.{IsWellFormedText, text_tokens};
ghost use Rattle.ps_text.specs.ExpectedTokens.{State, AreExpected, Passes, at_start};
ghost use Rattle.ps_text.specs.declared.kind.ReadKind.{ReadKind};
ghost use Rattle.ps_text.specs.Refusals.{Why};
ghost use Rattle.ps_text.specs.Versions.{PassIsRead, WhyIsTheVersions, IsPlain};
ghost use Rattle.ps_text.specs.PartialParses.{Parse, InPsat, state_of, parsed_tokens};
ghost use Rattle.ps_text.specs.PartialParses.{TakesToken};
ghost use Rattle.ps_meaning.specs.Statements.{Item, statements_of, questions_of};
ghost use Rattle.ps_text.specs.Fronts.{IsTextFront, IsFront, IsTextOf};
ghost use Rattle.ps_text.specs.OneAnswer.{HasOneDerivation, HaveOneMeaning, HasOneFront, MeansOnly};
ghost use Rattle.ps_text.specs.OneAnswer.{IsRefusedNowhere, HasOneRefusal, Answer, IsAnswer};
ghost use Rattle.ps_text.specs.Canonical.{canonical_text, sentences_first, AreLawful};

/// The table of expected tokens and the grammar say the same: tokens none of which is refused, up
/// to the `;` behind `end`, are those of a text within the grammar's levels and limits, and each
/// such text's tokens are refused nowhere.
pub fn expected_tokens_are_derived()
    ensures derived { (tokens : List Token) → AreExpected tokens → IsDerived tokens }
    ensures expected { (es : TextSyntax) → IsWellFormedText es → AreExpected (text_tokens es) }
{}

/// A derivation of the tokens so far begins with none of them, and takes each further token that
/// isn't refused: the tokens are one more then, and what is expected is what the table says.
pub fn derivations_take_tokens()
    ensures first { (state_of InPsat ≡ at_start) × (parsed_tokens InPsat ≡ []) }
    ensures next { (p : Parse) (t : Token) → TakesToken p t }
{}

/// All bytes are blanks, comments and longest tokens, up to the end or to a place where none of
/// them stands.
pub fn bytes_are_cut()
    ensures { (bytes : List ℕ) → Cut bytes }
{}

/// `+` and `-` are tokens in version 2 alone, and in version 1 nothing is expected of what is
/// linear. Bytes are cut, and tokens pass, as they do by the tokens of the version that is known
/// where they stand; and what is left is refused there for the same kind, where no blank and no
/// comment stands.
pub fn tokens_are_the_versions()
    ensures read { PassIsRead }
    ensures refused { WhyIsTheVersions }
    ensures plain { (tokens : List Token) (d : State) → Passes at_start tokens d → IsPlain d }
{}

/// At most one text stands at the front of some bytes: its derivation, its meaning and the place
/// behind it are the only ones.
pub fn one_text_stands_at_the_front()
    ensures derivation { (tokens : List Token) → HasOneDerivation tokens }
    ensures front { (bytes : List ℕ) → HasOneFront bytes }
{}

/// What is written means one list of items at most.
pub fn texts_have_one_meaning()
    ensures { (v : Version) (es : List ItemSyntax) → AreWellFormedItems v es → HaveOneMeaning es }
{}

/// Where a text stands at the front, the form isn't refused.
pub fn a_front_excludes_a_refusal()
    ensures { (bytes : List ℕ) (place : ℕ) → IsTextFront bytes place → IsRefusedNowhere bytes }
{}

/// The form of some bytes is refused at one place at most, and for one kind.
pub fn one_refusal_at_most()
    ensures { (bytes : List ℕ) → HasOneRefusal bytes }
{}

/// Two answers to the same bytes are the same: the items of the text at the front and where it
/// ends, or why and where the form is refused.
pub fn bytes_have_one_answer()
    ensures { (bytes : List ℕ) (a b : Answer) → IsAnswer bytes a → IsAnswer bytes b → a ≡ b }
{}

/// The canonical text of lawful items is a text that means these items and no others, and ends
/// where it ends.
pub fn canonical_text_means_its_items()
    ensures front { (is : List Item) → AreLawful is → IsTextOf (canonical_text is) is }
    ensures only { (is : List Item) → AreLawful is → MeansOnly (canonical_text is) is }
{}

/// What a text means is lawful, and so are its sentences and then its queries, which are the same
/// sentences and queries.
pub fn what_is_read_is_lawful()
    ensures lawful { (bytes : List ℕ) (is : List Item) (n : ℕ) → IsFront bytes is n → AreLawful is }
    ensures sorted { (is : List Item) → AreLawful is → AreLawful (sentences_first is) }
    ensures sentences { (is : List Item) → statements_of (sentences_first is) ≡ statements_of is }
    ensures queries { (is : List Item) → questions_of (sentences_first is) ≡ questions_of is }
{}
