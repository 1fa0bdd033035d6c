// The C face of the day file: an archive of its own, so that the reader's calls stay as they are compiled without it.
// Assumes nothing of the bytes and the numbers. The contracts cite the replies of crate `face_replies`, which give the numbers of an answer. include/gdt.h declares the calls.
#![tactic(auto)]

ghost use Rattle.std.specs.Prelude.{◌≡◌};
ghost use Rattle.meaning_day.specs.DayCalls.{build_call, append_call, lookup_call};
ghost use Rattle.face_replies.specs.Replies.{made_reply};

use face_replies::MadeReply;

#[unsafe(no_mangle)]
pub extern "C" fn gdt_day_build(file: &[u8], index: &mut [usize]) -> MadeReply
    ensures { (result ≡ made_reply (build_call file.now index.old).answer) × (index.new ≡ (build_call file.now index.old).buffer) }
{
    day_index::build(file, index).into()
}

#[unsafe(no_mangle)]
pub extern "C" fn gdt_day_append(
    file: &[u8],
    old: usize,
    index: &mut [usize],
    count: usize,
) -> MadeReply
    ensures { (result ≡ made_reply (append_call file.now old index.old count).answer) × (index.new ≡ (append_call file.now old index.old count).buffer) }
{
    day_index::append(file, old, index, count).into()
}

#[unsafe(no_mangle)]
pub extern "C" fn gdt_day_find(
    file: &[u8],
    index: &[usize],
    asked: &[u8],
    out: &mut [usize],
) -> MadeReply
    ensures { (result ≡ made_reply (lookup_call file.now index.now asked.now out.old).answer) × (out.new ≡ (lookup_call file.now index.now asked.now out.old).buffer) }
{
    day_lookup::lookup(file, index, asked, out).into()
}
