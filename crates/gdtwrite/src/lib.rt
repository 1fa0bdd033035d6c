// The C face of the writer: an archive of its own, so that the step of a line is not shared with the reader's and stays a part of each loop.
// Assumes nothing of the bytes. The contract cites the replies of crate `face_replies`, which give the numbers of an answer. include/gdt.h declares it.
#![tactic(auto)]

ghost use Rattle.std.specs.Prelude.{◌≡◌};
ghost use Rattle.meaning.specs.Answers.{write_call};
ghost use Rattle.face_replies.specs.Replies.{made_reply};

use face_replies::MadeReply;

#[unsafe(no_mangle)]
pub extern "C" fn gdt_write(list: &[u8], out: &mut [u8]) -> MadeReply
    ensures { (result ≡ made_reply (write_call list.now out.old).answer) × (out.new ≡ (write_call list.now out.old).buffer) }
{
    write::write(list, out).into()
}
