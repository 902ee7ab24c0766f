// The key of a whole input.
ghost use Rattle.std.specs.Prelude.{◌≡◌, IfOk};
ghost use Rattle.std.specs.Slice.Iter.{chunks_rest, chunks_size};
ghost use Rattle.program.specs.Cuts.{CutEvenly, pieces};
ghost use Rattle.program.specs.Written.{written};

use crate::clerk::Clerk;
use crate::page::{Page, RECORD_SIZE};
use crate::paper::blank_paper;
use std::alloc::{AllocError, Global};
use std::slice::Chunks;

pub(crate) fn cut(input: &[u8]) -> Chunks<'_, u8>
    ensures size { chunks_size result ≡ 40 }
    ensures rest { chunks_rest result ≡ input.now }
    ensures evenly { CutEvenly input.now }
{
    input.chunks(RECORD_SIZE)
}

// What is answered to the whole input, or an error for want of memory.
pub fn key_of<C: Clerk>(heap: Global, mut clerk: C, input: &[u8]) -> Result<Vec<u8>, AllocError>
    ensures is { IfOk result (λ key. key.items ≡ written (C.tells clerk (pieces input.now))) }
    ensures cut { CutEvenly input.now }
{
    let mut paper = blank_paper();
    let mut page = Page::blank();
    let mut key = Vec::new(heap);
    for piece in cut(input) {
        let response = clerk.respond(piece, &mut paper);
        page.write(response, &paper);
        key.extend_from_slice(page.text())?;
    }
    let response = clerk.end(&mut paper);
    page.write_parting(response, &paper);
    key.extend_from_slice(page.text())?;
    Ok(key)
}
