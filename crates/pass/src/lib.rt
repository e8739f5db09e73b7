// What a pass means is stated in specs/Pass.antt and proved in proofs/. No code stands here: the promises are about what the layers below are proved to do.
#![tactic(auto)]
