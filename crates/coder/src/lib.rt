// The bit coder of ECMA-363 clause 10.4: a writer, a reader and the end, for any bytes and any state that a caller hands in.
#![tactic(auto)]

pub mod bits;
pub mod dynamic;
pub mod ending;
pub mod histogram;
pub mod interval;
pub mod read;
pub mod reverse;
pub mod totals;
pub mod write;
