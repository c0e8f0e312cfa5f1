// Every schedule is explained by the plain strip. No function stands here.
#![tactic(auto)]
