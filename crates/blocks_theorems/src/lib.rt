// Theorems over blocks: every refusal is one of those stated, rows name their parts, and a file laid out by 01's rules is walked to its rows. There
// is no code here.
#![tactic(auto)]
