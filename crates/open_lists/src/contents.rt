//! What is kept of the contents of a list.

use crate::plan::BoxPlan;
use jlist_builder::HBuilder;

/// What is kept of the contents of a list that isn't the main one. Lists of other modes get
/// variants of their own.
#[derive(Debug, Drop)]
pub enum KeptContents {
    /// That of an `\hbox`.
    Restricted(BoxPlan, HBuilder),
}
