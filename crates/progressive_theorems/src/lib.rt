// Theorems over progressive meshes: every list of calls for steps up and down and for walks is answered as 01's tally answers it, and leaves
// the base mesh with the first steps laid on it. There is no code here.
#![tactic(auto)]
