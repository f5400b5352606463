// Stores of weights: a ring over memory that the caller lends, and a roll that keeps 64 weights itself.
#![tactic(auto)]

pub mod kind;
mod mark;
pub mod record;
pub mod ring;
pub mod roll;
mod slots;
pub mod weights;
