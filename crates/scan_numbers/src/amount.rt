//! Amounts of stretch and shrink.

use crate::number::Length;
use ts_geometry::Order;

/// How much, in scaled points, and of which order. A dimension is of the order Normal.
#[derive(Clone, Copy)]
pub struct Amount {
    pub size: Length,
    pub order: Order,
}
