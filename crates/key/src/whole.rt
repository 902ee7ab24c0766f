// The key of a whole input.
ghost use Rattle.std.specs.Prelude.{◌≡◌, IfOk};
ghost use Rattle.program.specs.Cuts.{CutEvenly};
ghost use Rattle.key.specs.Keys.{key_of};

use crate::desk::Desk;
pub use program::page::RECORD_SIZE;
use std::alloc::{AllocError, Global};

// What is answered to the whole input, or an error for want of memory.
#[tactic(auto, unfolding(crate::specs::Keys::key_of))]
pub fn key_of(heap: Global, input: &[u8]) -> Result<Vec<u8>, AllocError>
    ensures is { IfOk result (λ key. key.items ≡ key_of input.now) }
    ensures cut { CutEvenly input.now }
{
    program::whole::key_of(heap, Desk::new(), input)
}
