// Theorems over the bit coder: runs of calls are read back, and what is handed out is good. There is no code here.
#![tactic(auto)]
