// No code: the two code pages as Unicode's mapping files print them (specs/Pages), what a set in another code page is, by itself (specs/RecodeRules), and when recoding is refused, with which
// number and place (specs/RecodeBreaches). proofs/ says that `meaning_recode` is exact for these.
#![tactic(auto)]
