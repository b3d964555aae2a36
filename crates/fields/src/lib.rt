// What all readers share: little-endian fields and names of a byte slice, document 01's numbers and limits, the refusal.
#![tactic(auto)]

pub mod bounds;
pub mod field;
pub mod limits;
pub mod name;
pub mod refusal;
pub mod words;
