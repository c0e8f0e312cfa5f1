// The mirror, and that a left step is the mirror of the right step. No code.
#![tactic(auto)]
