// Document 01's worked examples, the rows marked P: one table, one statement over it, computed. There is no code here.
#![tactic(auto)]
