// The library for other languages: exported functions over the crates below, nothing but marshalling. Each answers document 01's
// number; the place and the other results go to `result`, which it leaves as it was where that is too short (12).
#![tactic(auto)]

pub mod climbs;
mod coder_state;
pub mod declaration;
pub mod headers;
pub mod histograms;
pub mod listings;
pub mod meshes;
pub mod reading;
pub mod requests;
mod result;
pub mod steps;
pub mod walk;
pub mod writing;
