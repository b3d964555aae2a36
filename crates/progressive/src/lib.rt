// Progressive meshes (01, "Climbing"): one step of detail up or down, on the caller's tables of faces and positions.
#![tactic(auto)]

pub mod counts;
pub mod form;
pub mod lay;
pub mod levels;
pub mod list;
pub mod refine;
pub mod requests;
pub mod rules;
pub mod show;
pub mod step;
pub mod words;
