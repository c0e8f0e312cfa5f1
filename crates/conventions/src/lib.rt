// The conventions of document 01 that no theorem needs, as one table of cases and one theorem. There is no code here.
#![tactic(auto)]
