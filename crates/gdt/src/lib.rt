// The C face of every call but the writer's: each exported function is thin, has no `requires`, and answers one record of numbers by value. include/gdt.h declares them for C.
// Assumes nothing of the bytes. The contracts cite the replies of crate `face_replies`, which give the numbers of each answer.
#![tactic(auto)]

ghost use Rattle.std.specs.Prelude.{◌≡◌, length};
ghost use Rattle.meaning.specs.Reading as Reading;
ghost use Rattle.meaning.specs.Views as Views;
ghost use Rattle.meaning.specs.Answers.{index_call, list_call, correct_call};
ghost use Rattle.face_replies.specs.Replies.{judged_reply, made_reply, viewed_reply, copied};
ghost use Rattle.face_replies.specs.IndexPlans.{plan_index};

use face_replies::{JudgedReply, MadeReply, ViewedReply};
use meaning::{Entry, Refusal};

#[unsafe(no_mangle)]
pub extern "C" fn gdt_judge(set: &[u8]) -> JudgedReply
    ensures { result ≡ judged_reply (Reading.judge set.now) }
{
    judge::judge(set).into()
}

// What the index of this set comes to, judged and held against the room for its entries.
fn plan_of(set: &[u8], room: usize) -> Result<usize, Refusal>
    ensures { result ≡ plan_index (Reading.judge set.now) room }
{
    face_replies::plan_index(judge::judge(set), room)
}

#[unsafe(no_mangle)]
pub extern "C" fn gdt_index(set: &[u8], out: &mut [Entry]) -> MadeReply
    ensures { (result ≡ made_reply (index_call set.now out.old).answer) × (out.new ≡ (index_call set.now out.old).buffer) }
{
    let plan = plan_of(set, out.len());
    if let Ok(count) = plan {
        let mut walk = index_walk::start();
        for entry in &mut out[..count] {
            let next = index_walk::next_entry(set, walk);
            *entry = next.entry;
            walk = next.walk;
        }
    }
    plan.into()
}

#[unsafe(no_mangle)]
pub extern "C" fn gdt_list(set: &[u8], out: &mut [u8]) -> MadeReply
    ensures { (result ≡ made_reply (list_call set.now out.old).answer) × (out.new ≡ (list_call set.now out.old).buffer) }
{
    list::list(set, out).into()
}

#[unsafe(no_mangle)]
pub extern "C" fn gdt_correct(
    buffer: &mut [u8],
    used: usize,
    line: usize,
    content: &[u8],
) -> MadeReply
    ensures { (result ≡ made_reply (correct_call buffer.old used line content.now).answer) × (buffer.new ≡ (correct_call buffer.old used line content.now).buffer) }
{
    correct::correct(buffer, used, line, content).into()
}

#[unsafe(no_mangle)]
pub extern "C" fn gdt_view(set: &[u8], sheet: &[u8], line: usize) -> ViewedReply
    ensures { result ≡ viewed_reply (Views.viewed set.now sheet.now line) }
{
    view::viewed(set, sheet, line).into()
}

// The content that a view shows, if there is room for all of it: a cut content is never shown. The answer is the room that it needs.
#[unsafe(no_mangle)]
pub extern "C" fn gdt_view_copy<'a>(
    set: &'a [u8],
    sheet: &'a [u8],
    line: usize,
    out: &mut [u8],
) -> usize
    ensures { (result ≡ length (Views.view set.now sheet.now line)) × (out.new ≡ copied (Views.view set.now sheet.now line) out.old) }
{
    let part = view::view(set, sheet, line);
    let need = part.len();
    if out.len() < need {
        return need;
    }
    byte_put::copy_front(out, part);
    need
}
