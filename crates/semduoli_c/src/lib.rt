// The register for hosts in C and Rust: a static library that exports the calls of crate `semduoli`, under the same names and with the same promises.
// include/semduoli.h says the same for a host.
#![tactic(auto)]

pub mod accession;
pub mod asked;
pub mod clients;
pub mod coding;
pub mod facts;
pub mod histories;
pub mod playbacks;
pub mod servers;
pub mod sheets;
