// The blocks of a free-space manager: the header FSHD and the section list FSSE.
#![tactic(auto)]

pub mod checks;
pub mod fsse;
pub mod groups;
pub mod header;
pub mod length;
pub mod manager;
pub mod persisted;
mod size;
