// The key of a whole input, written into bytes that the caller lends.
ghost use Rattle.std.specs.Prelude.{length};
ghost use Rattle.program.specs.Lent.{Lent};
ghost use Rattle.whole_key.specs.Keys.{key_of};

use crate::desk::Desk;

// How many bytes the key has, or nothing where the caller lends fewer; what they hold then is of no use.
#[tactic(auto, unfolding(crate::specs::Keys::key_of))]
pub fn key_into(input: &[u8], out: &mut [u8]) -> Option<usize>
    ensures { Lent (key_of input.now) (length out.old) out.new result }
{
    program::lent::key_into(Desk::new(), input, out)
}
