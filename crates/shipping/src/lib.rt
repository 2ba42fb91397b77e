//! What takes the boxes that are shipped, and the shipper that puts them as the pages of a DVI
//! file.
#![tactic(auto)]

mod fault;
mod page_shipper;
mod shipper;
#[cfg(test)]
mod tests;

pub use fault::ShipFault;
pub use page_shipper::PageShipper;
pub use shipper::Shipper;
