// What holds of every history of calls: the statements are specs/, the proofs stand in proofs/. There is no code here.
#![tactic(auto)]
