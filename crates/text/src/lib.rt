// Tab-separated text in a caller's buffer: words, decimals and hexadecimals, each stored as far as there is room for it.
#![tactic(auto)]

mod digits;
pub mod line;
