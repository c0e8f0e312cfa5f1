// The starred bench marks: a table of cases and one theorem. There is no code here.
#![tactic(auto)]
