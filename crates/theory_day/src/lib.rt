// No code: what an index of a day file, an appended set and a lookup are, each by itself (specs/DayRules), and when each is refused, with which number and place (specs/DayBreaches).
// proofs/ says that `meaning_day` is exact for these.
#![tactic(auto)]
