// Free space cut at page boundaries.
#![tactic(auto)]

pub mod pages;
