// Theorems over fields: what is laid out in bytes is read back. There is no code here.
#![tactic(auto)]
