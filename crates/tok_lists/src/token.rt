//! Tokens.

use jis_codes::Cell;
use ts_base::List;

/// The number of a name, counted from 0 in the order in which names came.
#[derive(Clone, Copy, Debug, PartialEq, Eq, Hash)]
pub struct NameNo(pub u32);

/// A token (The TeXbook, chapter 7; pTeX).
#[derive(Clone, Copy, Debug, PartialEq, Eq, Hash)]
pub enum Token {
    /// A character of one byte: its code, and its category, from 0 to 15.
    Char(u8, u8),
    /// A Japanese character.
    Ja(Cell),
    /// A control sequence or an active character.
    Name(NameNo),
    /// The name after a `\noexpand`, or the `\relax` that ends an unfinished test, which isn't
    /// expanded (The TeXbook, chapter 20; TeX: The Program, section 510).
    Kept(NameNo),
    /// A parameter of a macro's body: #1 to #9.
    Param(u8),
}

/// A list of tokens.
pub type Tokens = List<Token>;
