// The roll of a set: the labels of its lines, each read once, for a caller that asks for the label of many lines. They are read only as far as a line was asked for.
// Assumes that the lines asked for were read before, as those of an accepted set: only other crates here call it, and they prove that. The contracts cite specs/Rolled, and
// proofs/RollLaws says what holds of an accepted set.
#![tactic(auto)]

ghost use Rattle.std.specs.Prelude.{◌≡◌, ℕ, ◌-◌, ◌≤◌, ◌<◌, slice_index, get_or};
ghost use Rattle.line_read.specs.Told.{told_label};
ghost use Rattle.line_roll.specs.Rolled.{line_start, Lined};

// The labels of the first lines of a set, in order, with room for this many.
#[derive(Drop)]
pub struct Roll<'a, const ROOM: usize> {
    pub set: &'a [u8],
    pub labels: [u16; ROOM],
    // This many labels are known, and the line after theirs stands at this offset.
    pub known: usize,
    pub at: usize,
    ghost few: { known ≤ ROOM },
    ghost at_start: { at ≡ line_start set.now known },
    ghost labelled: { (k : ℕ) → k < known → slice_index labels k ≡ told_label set.now (line_start set.now k) },
}

impl<'a, const ROOM: usize> Roll<'a, ROOM> {
    // No label is known.
    pub fn of(set: &'a [u8]) -> Roll<'a, ROOM>
        ensures { (result.set.now ≡ set.now) × (result.known ≡ 0) × (result.at ≡ 0) }
    {
        Roll {
            set,
            labels: [0; ROOM],
            known: 0,
            at: 0,
        }
    }

    // Reads on until the labels of this many lines are known.
    pub fn read_to(&mut self, lines: usize)
        requires lined { Lined self.old.set.now lines }
        requires room { lines ≤ ROOM }
        ensures { (self.new.set.now ≡ self.old.set.now) × (lines ≤ self.new.known) }
    {
        let mut at = self.at;
        for line in self.known..lines {
            self.labels[line] = line_read::told_label(self.set, at) as u16;
            at += line_read::size_at(self.set, at);
        }
        if self.known < lines {
            self.known = lines;
            self.at = at;
        }
    }

    // The label of the line with this number, if it is known; what the roll has in its place otherwise.
    pub fn label_of(&self, line: usize) -> usize
        requires { (1 ≤ line) × (line ≤ ROOM) }
        ensures { (result ≡ get_or self.now.labels (line - 1) 0)
            × (line ≤ self.now.known → result ≡ told_label self.now.set.now (line_start self.now.set.now (line - 1))) }
    {
        usize::from(self.labels[line - 1])
    }
}
