// Figure 1 of the source for the right side, and that each step is one of its lines. No code.
#![tactic(auto)]
