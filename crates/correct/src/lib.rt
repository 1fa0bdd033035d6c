// The correction of one line of a set in its buffer.
// Assumes nothing of the buffer, the used length, the line number or the content: `correct` has no `requires`, and every refusal comes before the first byte is written.
#![tactic(auto)]

ghost use Rattle.std.specs.Prelude.{◌≡◌};
ghost use Rattle.meaning.specs.Answers.{correct_call};
ghost use Rattle.correct_plan.specs.Planned.{planned};

use correct_offer::AcceptedSet;
use correct_plan::Change;
use meaning::Refusal;

// All refusals but that of the used length: "the set's own refusals", then those of the correction.
fn plan_change(set: &[u8], room: usize, line: usize, content: &[u8]) -> Result<Change, Refusal>
    ensures { result ≡ planned set.now room line content.now }
{
    let shape = judge::judge(set)?;
    let accepted = AcceptedSet { bytes: set, shape };
    correct_plan::plan_judged(accepted, room, line, content)
}

// "A correction names a line and gives a new content": of the set in the first `used` bytes of the buffer.
pub fn correct(
    buffer: &mut [u8],
    used: usize,
    line: usize,
    content: &[u8],
) -> Result<usize, Refusal>
    ensures { (result ≡ (correct_call buffer.old used line content.now).answer)
        × (buffer.new ≡ (correct_call buffer.old used line content.now).buffer) }
{
    let room = buffer.len();
    // 18, BadUse: "used length over the buffer (place: buffer length)"
    if room < used {
        return Err(Refusal::at(Refusal::BAD_USE, room));
    }
    let Change { place, old, total } = plan_change(&buffer[..used], room, line, content)?;
    correct_put::put_content(buffer, used, place, old, content, total);
    Ok(total)
}
