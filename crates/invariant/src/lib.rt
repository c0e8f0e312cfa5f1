// What every reachable state keeps, and that every call keeps it. No function stands here.
#![tactic(auto)]
