// One section of the planning sheet: the table of coefficients and the formulas from a section and its demand to its answer.
#![tactic(auto)]

pub mod answer;
pub mod section;
pub mod table;
mod work;
