//! What is scanned, and what comes of it.

use crate::word::Word;
use box_tree::BoxSize;
use tok_lists::{SharedTokens, Tokens};
use ts_geometry::{Glue, Sp};
use ts_outside::FileName;

/// What a scan is to find.
#[derive(Clone, Copy, Debug, PartialEq, Eq)]
pub enum Want {
    Integer,
    Dimen,
    Glue,
    /// The size to which a box is packed.
    BoxSize,
    /// What `\the` takes: it gives an integer, a dimension, glue or tokens.
    Internal,
    /// Spaces and at most one `=`.
    Equals,
    Keyword(Word),
    /// The name of a file.
    FileName,
}

/// What a scan found.
#[derive(Debug, Drop, PartialEq, Eq)]
pub enum Value {
    Integer(i64),
    Dimen(Sp),
    Glue(Glue),
    Toks(SharedTokens),
    Equals,
    BoxSize(BoxSize),
    /// Whether it is there.
    Keyword(bool),
    FileName(FileName),
}

/// What comes of a token.
#[derive(Debug, Drop)]
pub enum Fed {
    /// A further token is wanted, fully expanded.
    Expanded,
    /// A further token is wanted as it is.
    Raw,
    /// The value, and the tokens to put back, in their order.
    Done(Value, Tokens),
}
