// No code: what walks by hand shared, and how one was written for the older kit, stands in proofs/Steps.antt; how a walk lent a local
// array, in proofs/Loans.antt. Today's kit makes such walks itself.
#![tactic(auto)]
