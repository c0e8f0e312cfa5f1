// What concerns swaps, said and proved once for every form of the strip. No function stands here.
#![tactic(auto)]
