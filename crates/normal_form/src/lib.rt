//! The normal form of a sound text, and the law of normal forms.
#![tactic(auto)]

mod laws;

pub use laws::normal_forms;
