// A comparison's verdicts held against its marks, on many rows at once. The plan's readings and drifts are laid out as lanes, one
// channel after another, each lane with the lead-in first, and a position is direct for a comparison where both of its terms are read
// in the lead-in or on pass 0: there the two terms are two stretches of lanes, and a sweep goes over many such positions.
#![tactic(auto)]

pub mod columns;
pub mod layout;
pub mod ranges;
pub mod rows;
pub mod stretch;
pub mod sweeps;
pub mod tops;
pub mod weeks;
