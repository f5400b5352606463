// Scales: what every scale answers, and three kinds of them.
#![tactic(auto)]

pub mod converter;
pub mod head;
pub mod kind;
pub mod reading;
pub mod settings;
pub mod smoothing;
mod window;
