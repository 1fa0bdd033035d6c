// No code: the rules of the paper stated by themselves (specs/Keeps), and the proof that judging is exact for them (proofs/Exact).
#![tactic(auto)]
