// What programs that read lines share: words, numbers and bytes as text, fields read byte by byte, and what is printed for a case.
#![tactic(auto)]

pub mod fields;
pub mod kept;
pub mod report;
#[cfg(test)]
mod tests;
pub mod text;
