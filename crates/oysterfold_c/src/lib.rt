// The static library for other languages: each export calls the function of `oysterfold` that has its name, and promises the same.
#![tactic(auto)]

pub mod climbs;
pub mod declaration;
pub mod headers;
pub mod histograms;
pub mod listings;
pub mod meshes;
pub mod reading;
pub mod requests;
pub mod steps;
pub mod walk;
pub mod writing;
