// The mark table as bytes: its marks and witnesses, many marks at once, marks written, and refusals 7 and 8.
#![tactic(auto)]

pub mod all;
pub mod bytes;
pub mod fills;
pub mod sweeps;
