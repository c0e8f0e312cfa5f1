// What a listing shows, read back from its text. No function stands here.
#![tactic(auto)]
