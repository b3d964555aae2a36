// The blocks of a Universal 3D file (ECMA-363 clauses 9.1, 9.2, 9.4.1, 9.4.3): header, heads, chains, the walk.
#![tactic(auto)]

pub mod block;
pub mod chain;
pub mod file;
pub mod head;
pub mod header;
pub mod kind;
mod padding;
pub mod parts;
pub mod tell;
mod walk;
