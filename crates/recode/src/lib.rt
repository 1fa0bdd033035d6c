// Recoding of a whole set in its buffer, between the code pages 437 and 1252.
// Assumes nothing of the buffer or the used length: `recode` has no `requires`, and every refusal comes before the first byte is written.
#![tactic(auto)]

ghost use Rattle.std.specs.Prelude.{◌≡◌, ◌≤◌, length};
ghost use Rattle.meaning_recode.specs.RecodeCalls.{recode_call};
ghost use Rattle.recode_plan.specs.RecodePlans.{planned};

use correct_offer::AcceptedSet;
use meaning::Refusal;
use meaning_recode::Code;
use recode_plan::Plan;

// All refusals but that of the used length: the set's own, then those of recoding.
fn plan_recode(set: &[u8], room: usize, wanted: Code) -> Result<Plan, Refusal>
    requires { length set.now ≤ room }
    ensures { result ≡ planned set.now room wanted }
{
    let shape = judge::judge(set)?;
    let accepted = AcceptedSet { bytes: set, shape };
    recode_plan::plan_judged(accepted, room, wanted)
}

// "Recoding of a whole set in its buffer": of the set in the first `used` bytes of the buffer.
pub fn recode(buffer: &mut [u8], used: usize, wanted: Code) -> Result<usize, Refusal>
    ensures { (result ≡ (recode_call buffer.old used wanted).answer)
        × (buffer.new ≡ (recode_call buffer.old used wanted).buffer) }
{
    let room = buffer.len();
    // 18, BadUse: "used length over the buffer (place: buffer length)"
    if room < used {
        return Err(Refusal::at(Refusal::BAD_USE, room));
    }
    // 1, Empty, which `judge` would answer too: here nothing has been set up for judging yet.
    if used == 0 {
        return Err(Refusal::at(Refusal::EMPTY, 0));
    }
    let plan = plan_recode(&buffer[..used], room, wanted)?;
    let table = recode_table::table_into(wanted);
    match plan {
        Plan::Stays => {
            recode_put::put_nothing(buffer, used);
            Ok(used)
        }
        Plan::Marks { place } => {
            recode_put::put_mark(buffer, used, place, wanted);
            Ok(used)
        }
        Plan::Recodes { plain, place } => {
            recode_put::put_recoded(buffer, used, plain, place, wanted, table);
            Ok(used)
        }
        Plan::Gains { plain } => {
            let total = used + recode_plan::GAINED;
            recode_put::put_gained(buffer, used, plain, wanted, table);
            Ok(total)
        }
    }
}
