//! What the eyes give.

use tok_lists::Token;

/// The next token, or the end of the file.
#[derive(Clone, Copy, Debug, PartialEq, Eq)]
pub enum Seen {
    Token(Token),
    End,
}
