// Ties between what the run program and the lent record do and the runs that the demands speak of. They are stated in specs/Ties.antt and proved in
// proofs/. No code stands here.
#![tactic(auto)]
