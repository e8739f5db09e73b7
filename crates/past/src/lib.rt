// What an observer says who sees the records alone, and never the chip, is defined in specs/. No code stands here.
#![tactic(auto)]
