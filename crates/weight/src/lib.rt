// Weights, how they are rounded, and the numbered refusals of the controller.
#![tactic(auto)]

pub mod fault;
pub mod range;
pub mod rounding;
