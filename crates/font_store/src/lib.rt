//! Fonts by name: the metric of a name, and fonts by number.
#![tactic(auto)]

mod fonts;
mod laws;
mod loading;
mod metric;

pub use fonts::Fonts;
pub use laws::{
    cells_have_their_measures, loaded_metrics_are_whole, widths_are_those_of_the_metrics,
};
pub use loading::{LoadFault, load};
pub use metric::Metric;

#[cfg(test)]
mod tests;
