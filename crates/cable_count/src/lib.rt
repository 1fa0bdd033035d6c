// The sequence count of a block: sender and receiver count alike.
// Nothing is assumed of the number. The contract cites the definition of its name.
#![tactic(auto)]

ghost use Rattle.std.specs.Prelude.{◌≡◌};
ghost use Rattle.meaning_cable.specs.Sending.{next_count};

// "Count 1 to 9 then 1 again, 0 at the start". A count over 9 can only stand in a foreign record; 1 follows it.
pub fn next_count(count: usize) -> usize
    ensures { result ≡ next_count count }
{
    if meaning_cable::COUNT <= count {
        return 1;
    }
    count + 1
}
