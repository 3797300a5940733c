// Histories of a register, document 01 "Histories": whether all operations of a history can be put in one row, and in which. Operations are taken by
// value here; `history_row` walks the slice that holds them.
#![tactic(auto)]

pub mod answers;
pub mod judge;
pub mod operation;
pub mod search;
