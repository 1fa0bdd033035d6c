// Seven bits, of a field list whose entries were checked before: whether it has 9206 with content 1, and 24, its first content byte over 7Fh.
// Assumes nothing of the bytes: an entry that is cut ends a walk. Each contract cites a walk of specs/, and proofs/ListSevenMeaning says what the walks are for entries
// that keep the rules.
#![tactic(auto)]

ghost use Rattle.std.specs.Prelude.{◌≡◌, ◌+◌, ◌≤◌, length};
ghost use Rattle.meaning.specs.Digits.{digits};
ghost use Rattle.meaning.specs.Kinds.{same_bytes};
ghost use Rattle.meaning.specs.Entries.{entry_lead};
ghost use Rattle.entry_read.specs.Head.{list_content};
ghost use Rattle.write_seven.specs.ListSeven.{if_any, list_says_seven, high_in_contents, high_in_list};

use entry_read::Head;
use meaning::Refusal;

// "Content 1": the content of the entry at an offset, which has this many bytes.
fn is_one(list: &[u8], at: usize, bytes: usize) -> bool
    requires { at + (entry_lead + bytes) ≤ length list.now }
    ensures { result ≡ same_bytes (list_content list.now at bytes) (digits 1 1) }
{
    if bytes != 1 {
        return false;
    }
    list[at + meaning::ENTRY_LEAD] == meaning::SEVEN_BITS
}

// "If a set holds 9206 with content 1": 9206 stands once, so the walk ends at the first.
fn list_says_seven(list: &[u8]) -> bool
    ensures { result ≡ list_says_seven list.now 0 }
{
    let mut at: usize = 0;
    while let Some(Head { label, length }) = entry_read::entry_at(list, at) {
        if label == meaning::LABEL_9206 {
            return is_one(list, at, length);
        }
        at += meaning::ENTRY_LEAD + length;
    }
    false
}

// 24, HighByte: "place of the first such byte". The contents are searched one by one, since a head may have bytes over 7Fh.
fn high_in_contents(list: &[u8]) -> Option<Refusal>
    ensures { result ≡ if_any (high_in_contents list.now 0) }
{
    let mut at: usize = 0;
    while let Some(Head { label: _, length }) = entry_read::entry_at(list, at) {
        let content = at + meaning::ENTRY_LEAD;
        let end = content + length;
        let high = byte_high::first_high(list, content, length);
        if high < end {
            return Some(Refusal::at(Refusal::HIGH_BYTE, high));
        }
        at = end;
    }
    None
}

// 24 of a list: no content is searched if 9206 says 2 or 3.
pub fn high_in_list(list: &[u8]) -> Option<Refusal>
    ensures { result ≡ if_any (high_in_list list.now) }
{
    if list_says_seven(list) {
        return high_in_contents(list);
    }
    None
}
