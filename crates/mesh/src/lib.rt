// Meshes: the declaration (clause 9.6.1.1) and the base mesh continuation (clause 9.6.1.2).
#![tactic(auto)]

pub mod base;
pub mod declaration;
pub mod faces;
pub mod head;
pub mod run;
pub mod shading;
pub mod tables;
