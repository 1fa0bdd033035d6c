// The lines of one entry of a list, put into a lent buffer: its own, and after the first that of 8100.
// Assumes of each call that what it puts lies within the buffer: only another crate here calls it, and proves that. The contract says what every byte of the buffer is afterwards.
#![tactic(auto)]

ghost use Rattle.std.specs.Prelude.{◌≡◌, [], ◌∷◌, ◌+◌, ◌≤◌, length};
ghost use Rattle.meaning.specs.Digits.{digits};
ghost use Rattle.meaning.specs.Field.{field};
ghost use Rattle.meaning.specs.Lines.{cr, lf, line_lead, line_end, line_then};
ghost use Rattle.meaning.specs.Lists.{sum_digits, sum_line, sum_field};
ghost use Rattle.byte_put.specs.Places.{over};
ghost use Rattle.write_lines.specs.EntryLines.{entry_lines};

// The end of a line at an offset.
fn put_end(out: &mut [u8], at: usize)
    requires { at + line_end ≤ length out.old }
    ensures { out.new ≡ over at (cr ∷ lf ∷ []) out.old }
{
    out[at] = meaning::CR;
    out[at + 1] = meaning::LF;
}

// The line of a field at an offset: "three digits (its whole length), four digits (label), content, 0Dh 0Ah".
fn put_line(label: usize, content: &[u8], out: &mut [u8], to: usize)
    requires { to + (length content.now + (line_lead + line_end)) ≤ length out.old }
    ensures { out.new ≡ over to (line_then (field label content.now) []) out.old }
{
    let size = content.len() + meaning::LINE_FRAME;
    byte_put::put_digits(out, to, meaning::LENGTH_DIGITS, size);
    byte_put::put_digits(
        out,
        to + meaning::LENGTH_DIGITS,
        meaning::LABEL_DIGITS,
        label,
    );
    let from = to + meaning::LINE_LEAD;
    byte_put::copy_front(&mut out[from..], content);
    put_end(out, from + content.len());
}

// The line of 8100 at an offset, with the sum's five digits.
fn put_sum(total: usize, out: &mut [u8], to: usize)
    requires { to + sum_line ≤ length out.old }
    ensures { out.new ≡ over to (line_then (sum_field total) []) out.old }
{
    let mut sum = [0; meaning::SUM_DIGITS];
    byte_put::put_digits(&mut sum, 0, meaning::SUM_DIGITS, total);
    put_line(meaning::LABEL_8100, &sum, out, to);
}

// The lines of the entry at `from` in the list, at an offset: its own, and after the first that of 8100. The offset after them.
pub fn put_lines(
    from: usize,
    label: usize,
    content: &[u8],
    total: usize,
    out: &mut [u8],
    to: usize,
) -> usize
    requires { to + length (entry_lines from label content.now (digits sum_digits total)) ≤ length out.old }
    ensures { (result ≡ to + length (entry_lines from label content.now (digits sum_digits total)))
        × (out.new ≡ over to (entry_lines from label content.now (digits sum_digits total)) out.old) }
{
    put_line(label, content, out, to);
    let end = to + (content.len() + meaning::LINE_FRAME);
    if from != 0 {
        return end;
    }
    put_sum(total, out, end);
    end + meaning::SUM_LINE
}
