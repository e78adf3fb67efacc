// Text in lent bytes: numbers in decimal, and words.
#![tactic(auto)]

mod decimal;
pub mod words;
