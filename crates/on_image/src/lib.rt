// No code: runs of calls on an image, and that they are explained by the plain strip.
#![tactic(auto)]
