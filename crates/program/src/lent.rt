// The key of a whole input, written into bytes that the caller lends.
ghost use Rattle.std.specs.Prelude.{◌≡◌, ◌+◌, ◌<◌, ◌≤◌, ◌++◌, length, take, MatchOption};
ghost use Rattle.program.specs.Cuts.{pieces};
ghost use Rattle.program.specs.Lent.{Lent};
ghost use Rattle.program.specs.Written.{written};

use crate::clerk::Clerk;
use crate::page::Page;
use crate::paper::blank_paper;
use crate::whole::cut;

// The text behind the `at` bytes that are written; how many bytes these are now, or nothing where it has
// no room. No struct of `out` and `at`: behind it the proof loses what `out` holds in the end.
fn append(out: &mut [u8], at: usize, text: &[u8]) -> Option<usize>
    requires { at ≤ length out.old }
    ensures long { length out.new ≡ length out.old }
    ensures text { MatchOption result (length out.old < at + length text.now) (λ n. (n ≡ at + length text.now) × (n ≤ length out.old) × (take n out.new ≡ take at out.old ++ text.now)) }
{
    if out.len() - at < text.len() {
        return None;
    }
    let end = at + text.len();
    out[at..end].copy_from_slice(text);
    Some(end)
}

// How many bytes the key has, or nothing where the caller lends fewer; what they hold then is of no use. The loop
// is that of the key in a Vec: a sink for both would need the struct that `append` does without.
pub fn key_into<C: Clerk>(mut clerk: C, input: &[u8], out: &mut [u8]) -> Option<usize>
    ensures { Lent (written (C.tells clerk (pieces input.now))) (length out.old) out.new result }
{
    let mut paper = blank_paper();
    let mut page = Page::blank();
    let mut at = 0;
    for piece in cut(input) {
        let response = clerk.respond(piece, &mut paper);
        page.write(response, &paper);
        at = append(out, at, page.text())?;
    }
    let response = clerk.end(&mut paper);
    page.write_parting(response, &paper);
    append(out, at, page.text())
}
