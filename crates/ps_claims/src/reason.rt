//! Why a claim isn't valid.
use ps_pb::StepRefused;

/// What is wrong with a claim, in the order in which it is looked for; entries and bounds are
/// numbered from 1.
#[derive(Clone, Copy, Debug, PartialEq)]
pub enum Reason {
    /// A world has another length than the number of atoms, or the multipliers aren't as many as
    /// the bounds.
    WrongShape,
    /// There are more worlds than bounds and one.
    TooManyWorlds,
    /// The first entry at fault has the weight 0.
    WeightZero { entry: u32 },
    /// The first entry at fault has a world that stood before.
    WorldTwice { entry: u32 },
    /// The total is 0 or isn't the sum of the weights.
    TotalWrong,
    /// The first bound that the weights don't meet.
    BoundMissed { bound: u32 },
    /// The model of a side gives the evidence no weight.
    EvidenceZero,
    /// The model of a side doesn't give the query the side's value.
    ValueMissed,
    /// Head and top aren't those of the claim.
    HeadWrong,
    /// The first bound whose multiplier is of the wrong sign.
    MultiplierSign { bound: u32 },
    /// The first step that isn't lawful, by its id; why isn't want of memory.
    StepRefused { step: u64, why: StepRefused },
    /// There is no step, or the last one has literals.
    NotRefuted,
}
