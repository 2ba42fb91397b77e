//! A fault with its place.

use crate::kind::FaultKind;
use mouth::Place;

/// The first fault of a source, and the place where it is met: the innermost open file, and the
/// number of its last line that was needed.
#[derive(Debug, Drop, PartialEq, Eq)]
pub struct Fault {
    pub kind: FaultKind,
    pub place: Place,
}
