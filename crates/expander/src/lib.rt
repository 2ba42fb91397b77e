//! Expansion (The TeXbook, chapter 20): the gullet, which gives the next unexpandable token.
#![tactic(auto)]

mod action;
mod actions;
mod choices;
mod comparisons;
mod conditionals;
mod definition;
mod expansion;
mod faces;
mod fault;
mod gullet;
mod gullet_fault;
mod laws;
mod naming;
mod numbers;
mod plain;
mod scans;
mod steps;

pub use fault::StepFault;
pub use gullet::Gullet;
pub use gullet_fault::GulletFault;
pub use laws::{
    bodies_go_on, environments_stay_fit, expansion_is_its_steps, expansions_change_meanings_alone,
    expansions_leave_less, meanings_are_compared,
};
