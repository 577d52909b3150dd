// A plan with passes of its cycle laid out as start rows: how many passes can be laid out, and the plan that is written then.
#![tactic(auto)]

pub mod fits;
pub mod numbers;
pub mod writing;
