// Lines of the protocol: the name of a call, and short answers.
#![tactic(auto)]

pub mod answer;
pub mod call;
