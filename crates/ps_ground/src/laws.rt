//! What ground formulas say of structures. A call does nothing: its contract is the law.
ghost use Rattle.std.specs.Prelude.{List};
ghost use Rattle.ps_first_order.specs.FirstOrder.{Signature, IsSignature};
ghost use Rattle.ps_first_order.specs.Texts.{FirstOrderItem};
ghost use Rattle.ps_ground.specs.Laws.{OfTexts, AtomNamesDiffer, WorldsHaveTheTruths, TruthIsKept};
ghost use Rattle.ps_ground.specs.Laws.{GroundAtomsAreNames};
ghost use Rattle.ps_ground.specs.Laws.{ImagesAreDistributions, ImagesMeetTheProblem, AllAreImages};
ghost use Rattle.ps_ground.specs.Laws.{QueriesAreAsked, InconsistentTogether, QueriesAreKept};

/// Ground atoms go by their names, and a structure's world has their truth values.
pub fn atoms_go_by_their_names()
    ensures different { (s : Signature) → IsSignature s → AtomNamesDiffer s }
    ensures names { (s : Signature) → IsSignature s → GroundAtomsAreNames s }
    ensures truths { (s : Signature) → IsSignature s → WorldsHaveTheTruths s }
{}

/// A sentence is true in a structure exactly where its ground formula is true in the world with
/// the same truth values.
pub fn ground_formulas_keep_truth()
    ensures { OfTexts TruthIsKept }
{}

/// A distribution over structures has a distribution over worlds as its image, and meets the text
/// exactly where its image meets the problem; every distribution over worlds is an image.
pub fn distributions_have_images()
    ensures images { OfTexts ImagesAreDistributions }
    ensures met { OfTexts ImagesMeetTheProblem }
    ensures all { OfTexts AllAreImages }
{}

/// Bounds over structures are bounds over worlds, and are reached where these are.
pub fn bounds_over_structures_are_those_over_worlds()
    ensures inconsistent { OfTexts InconsistentTogether }
    ensures asked { (s : Signature) (items : List FirstOrderItem) → QueriesAreAsked s items }
    ensures queries { OfTexts QueriesAreKept }
{}
