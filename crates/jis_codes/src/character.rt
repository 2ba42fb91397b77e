//! Characters.

use crate::cell::Cell;
use ts_base::List;

/// A character of a line: a byte, below 128, or a cell of JIS X 0208.
#[derive(Clone, Copy, Debug, PartialEq, Eq, Hash)]
pub enum Char {
    One(u8),
    Ja(Cell),
}

/// A list of characters.
pub type Chars = List<Char>;
