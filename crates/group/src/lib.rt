// What a server and a client do alike with the entries that servers sent: which of them have a digest list, the value from the k lowest of a group,
// and the digests of a value's blocks.
#![tactic(auto)]

pub mod decoding;
pub mod digesting;
pub mod fitting;
pub mod matching;
pub mod vouching;
