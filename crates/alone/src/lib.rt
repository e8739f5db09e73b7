// That the past alone decides is stated in specs/Alone.antt and proved in proofs/. No code stands here.
#![tactic(auto)]
