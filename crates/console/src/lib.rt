// A program's input and output: lines in, answers out. What cannot be read or written ends the program and is said on standard error, and what does not come
// at once is waited for.
#![tactic(auto)]

pub mod counts;
pub mod failure;
pub mod input;
pub mod lines;
pub mod output;
pub mod patience;
