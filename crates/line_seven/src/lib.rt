// Seven bits, of a set whose lines keep the rules: whether it holds 9206 with content 1, and 24, its first content byte over 7Fh.
// Assumes nothing of the bytes. Each contract cites a walk of specs/, and proofs/SevenMeaning says what the walks are for lines that keep the rules.
#![tactic(auto)]

ghost use Rattle.std.specs.Prelude.{◌≡◌};
ghost use Rattle.line_seven.specs.Seven.{says_seven, high_for};

// "If a set holds 9206 with content 1": the content of 9206 is one byte, and 9206 stands once.
fn says_seven(set: &[u8]) -> bool
    ensures { result ≡ says_seven set.now }
{
    let place = line_find::first_place(set, meaning::LABEL_9206);
    if place == 0 {
        return false;
    }
    if set.len() <= place {
        return false;
    }
    set[place] == meaning::SEVEN_BITS
}

// The offset of the first byte over 7Fh of these bytes, if the set holds 9206 with content 1; if there is none, or the set does not, how many bytes these are. Such bytes
// are rare, so the set is asked second.
pub fn high_for(set: &[u8], bytes: &[u8]) -> usize
    ensures { result ≡ high_for set.now bytes.now }
{
    let high = byte_high::first_high(bytes, 0, bytes.len());
    if high < bytes.len() {
        if says_seven(set) {
            return high;
        }
    }
    bytes.len()
}
