// No code: the rows of the set tables and of the field table as printed, with sets and contents for each of them (proofs/RowExamples, proofs/FieldExamples), and the longest
// sets (proofs/LongSets, proofs/LongRecoding), computed and compared; and what the theorems of `meaning` shut out, tried with trivial functions (proofs/ShutOut).
#![tactic(auto)]
