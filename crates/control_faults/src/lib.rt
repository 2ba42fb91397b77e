//! Why a command of main control is refused: the faults of a source, and what else ends a run.
#![tactic(auto)]

mod fault;
mod kind;
mod turn_fault;

pub use fault::Fault;
pub use kind::FaultKind;
pub use turn_fault::TurnFault;
