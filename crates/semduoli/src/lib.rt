// The register for hosts: functions that take numbers and lent areas of bytes only. Crate `semduoli_c` exports each of them to hosts in C and Rust, and
// crate `hosts` shows what hosts do with them.
// The C interface (include/semduoli.h): n, t, k and size are four numbers, a party is a class and a number, and each answer and refusal is a number.
#![tactic(auto)]

pub mod accession;
pub mod asked;
pub mod clients;
pub mod coding;
pub mod facts;
pub mod histories;
pub mod playbacks;
pub mod senders;
pub mod servers;
pub mod sheets;
