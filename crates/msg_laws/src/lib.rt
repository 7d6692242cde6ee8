//! What follows from the model of frames, and no engine needs: laws for programs that prove more of
//! their own runs.
#![tactic(auto)]

pub mod reader_laws;
pub mod turn_laws;
