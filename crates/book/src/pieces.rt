// What is left of a number of pieces.
ghost use Rattle.std.specs.Prelude.{◌≡◌, ◌-◌, None, Some, if◌then◌else◌, nat_lt};

// None where none is left.
pub(crate) fn left(pieces: u32, taken: u32) -> Option<u32>
    ensures { result ≡ (if nat_lt taken pieces then Some (pieces - taken) else None) }
{
    if taken < pieces {
        Some(pieces - taken)
    } else {
        None
    }
}
