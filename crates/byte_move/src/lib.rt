// Bytes moved inside a lent buffer.
// Assumes of each call that both places lie within the buffer: only another crate here calls it, and proves that. The contract says every byte of the buffer afterwards.
#![tactic(auto)]

ghost use Rattle.std.specs.Prelude.{◌≡◌, ◌+◌, ◌≤◌, length};
ghost use Rattle.byte_move.specs.Moved.{moved};

// Moves n bytes from `from` to `to`, in the direction in which none of them is overwritten before it is read.
#[tactic(auto, using(crate::proofs::MoveLaws::low_first, crate::proofs::MoveLaws::high_first), unfolding(crate::specs::Moved::moved))]
pub fn move_within(s: &mut [u8], from: usize, to: usize, n: usize)
    requires { (from + n ≤ length s.old) × (to + n ≤ length s.old) }
    ensures { s.new ≡ moved from to n s.old }
{
    s.copy_within(from..from + n, to);
}
