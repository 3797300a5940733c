// A history as text: a line for each operation, document 01 "Histories".
#![tactic(auto)]

pub mod line;
pub mod number;
pub mod text;
