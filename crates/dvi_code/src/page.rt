//! The pages of a DVI file.

use crate::mark::Marks;
use ts_base::List;

/// A page: its ten counts, and its marks in the order in which they are set.
#[derive(Debug, Drop, PartialEq, Eq)]
pub struct DviPage {
    pub counts: [i32; 10],
    pub marks: Marks,
}

/// A list of pages.
pub type DviPages = List<DviPage>;
