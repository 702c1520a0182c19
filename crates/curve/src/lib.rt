// From the sums and the table to the curve: the displacement and KG, what the table gives there, the levers, y at each tenth of a degree, areas, and searches along the curve.
#![tactic(auto)]

pub mod levers;
pub mod loading;
mod searches;
pub mod table;
mod tenths;

pub use tenths::Curve;
