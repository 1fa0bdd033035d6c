// No code: the breaches of the rules in the paper's order (specs/Breaches), and the proof that a refusal is that of the first breach (proofs/FirstOnly); the refusals of index,
// list and correction (specs/CallBreaches, proofs/CallExact); what the theorems that say "exactly", and those on calls that refuse, shut out (proofs/ShutOutExact).
#![tactic(auto)]
