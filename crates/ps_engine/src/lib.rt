//! An engine that guesses answers: it finds them by floats, and makes whole numbers of them. Nothing
//! is claimed of its guesses; they are judged elsewhere.
#![tactic(auto)]

mod about;
mod basis_system;
mod descent;
mod elimination;
mod engine;
mod evidence;
mod face;
mod first_phase;
mod gathering;
mod guesses;
mod limits;
mod on_face;
mod pace;
mod proof;
mod rounding;
mod shrinking;
mod side;
mod tolerances;
mod vertex;
mod walk;
mod whole;

pub use engine::Engine;
pub use ps_guesser::{Guess, Guesser, Progress};
pub use tolerances::Tolerances;
