// The C face of recoding: an archive of its own, so that the reader's calls stay as they are compiled without it.
// Assumes nothing of the bytes and the used length. The contracts cite the replies of crate `face_replies`, which give the numbers of an answer. include/gdt.h declares the calls.
#![tactic(auto)]

ghost use Rattle.std.specs.Prelude.{◌≡◌};
ghost use Rattle.meaning_recode.specs.RecodeCalls.{recode_call};
ghost use Rattle.face_replies.specs.Replies.{made_reply};

use face_replies::MadeReply;
use meaning_recode::Code;

#[unsafe(no_mangle)]
pub extern "C" fn gdt_to_437(buffer: &mut [u8], used: usize) -> MadeReply
    ensures { (result ≡ made_reply (recode_call buffer.old used Code.Page437).answer) × (buffer.new ≡ (recode_call buffer.old used Code.Page437).buffer) }
{
    recode::recode(buffer, used, Code::Page437).into()
}

#[unsafe(no_mangle)]
pub extern "C" fn gdt_to_1252(buffer: &mut [u8], used: usize) -> MadeReply
    ensures { (result ≡ made_reply (recode_call buffer.old used Code.Page1252).answer) × (buffer.new ≡ (recode_call buffer.old used Code.Page1252).buffer) }
{
    recode::recode(buffer, used, Code::Page1252).into()
}
