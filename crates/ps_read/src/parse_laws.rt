//! What the machine over tokens stands for. A call does nothing: its contract is the law.
ghost use Rattle.ps_text.specs.Tokens.{Token};
ghost use Rattle.ps_text.specs.PartialParses.{Parse, InPsat};
ghost use Rattle.ps_read.specs.Machine.{Machine, at_first};
ghost use Rattle.ps_read.specs.Derivations.{Represents, RepresentsAfter};

/// The machine over tokens stands for the derivation of the tokens so far: before the first token,
/// and behind each token that isn't refused. So the items of its draft are what is written.
pub fn the_machine_stands_for_a_derivation()
    ensures first { Represents InPsat at_first }
    ensures next { (p : Parse) (m : Machine) (t : Token) → RepresentsAfter p m t }
{}
