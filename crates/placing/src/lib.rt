// From facts about single entries to whole histories, for any machine. No function stands here.
#![tactic(auto)]
