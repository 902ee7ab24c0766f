// The key of a whole input.
ghost use Rattle.std.specs.Prelude.{◌≡◌, IfOk, None};
ghost use Rattle.program.specs.Cuts.{CutEvenly, pieces};
ghost use Rattle.whole_key.specs.KeptDays.{Kept};
ghost use Rattle.whole_key.specs.Keys.{answers, key_of};

use crate::desk::Desk;
use std::alloc::{AllocError, Global};

// What is answered to the whole input, or an error for want of memory.
#[tactic(auto, unfolding(crate::specs::Keys::key_of))]
pub fn key_of(heap: Global, input: &[u8]) -> Result<Vec<u8>, AllocError>
    ensures is { IfOk result (λ key. key.items ≡ key_of input.now) }
    ensures cut { CutEvenly input.now }
    ensures lawful { Kept (pieces input.now) (answers None (pieces input.now)) }
{
    program::whole::key_of(heap, Desk::new(), input)
}
