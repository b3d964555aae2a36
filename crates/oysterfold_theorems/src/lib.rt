// Theorems over the exported coder: arrays give back what was stored in them, and runs of exported calls are runs of the coder. There is no code here.
#![tactic(auto)]
