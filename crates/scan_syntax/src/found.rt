//! What is found.

ghost use Rattle.scan_syntax.specs.Bounds.{IsWithinBounds};
ghost use Rattle.scan_syntax.specs.Props.{bounded_prop};

use crate::want::Value;

/// A value whose numbers are within their bounds.
#[derive(Drop)]
pub(crate) struct Found {
    pub(crate) value: Value,
    ghost within: { IsWithinBounds value } by { bounded_prop value },
}
