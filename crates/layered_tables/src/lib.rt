//! Tables under groups: what is set in a group goes with it, and what is set globally stays.
#![tactic(auto)]

mod kept;
mod laws;
mod layers;
#[cfg(test)]
mod tests;

pub use kept::Kept;
pub use laws::{Property, a_value_stands_where_it_is_set, values_keep_what_all_have};
pub use layers::Layers;
