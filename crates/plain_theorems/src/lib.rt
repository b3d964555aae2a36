// Theorems over plain values: at fresh limits the bit coder writes and reads bytes as they are. There is no code here.
#![tactic(auto)]
