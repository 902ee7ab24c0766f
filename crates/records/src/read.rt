// From bytes to a line.
ghost use Rattle.std.specs.Prelude.{◌≡◌, ◌+◌, ◌≤◌, length};
ghost use Rattle.records.specs.Reading.{body_of, digit_of, field_at, number_of};
ghost use Rattle.records.specs.Conversions.{Reads};

use crate::line::{Line, Unreadable};

fn digit_of(byte: u8) -> Option<u32>
    ensures { result ≡ digit_of byte }
{
    match byte {
        b'0'..=b'9' => Some((byte - b'0') as u32),
        _ => None,
    }
}

// The number that the digits stand for.
fn number_of(digits: &[u8]) -> Option<u32>
    requires { length digits.now ≤ 8 }
    ensures { result ≡ number_of digits.now }
{
    let mut n: u32 = 0;
    for byte in digits {
        n = n * 10 + digit_of(*byte)?;
    }
    Some(n)
}

// The number of `size` digits from place `at` on.
fn field(rest: &[u8], at: usize, size: usize) -> Result<u32, Unreadable>
    requires size { size ≤ 8 }
    requires within { at + size ≤ length rest.now }
    ensures { result ≡ field_at rest.now at size }
{
    number_of(&rest[at..at + size]).ok_or(Unreadable)
}

// The digits after letter and mark, up to the newline. The places are those of the table of the format: a
// reader of the next digits would hand on what is left, and say no more.
fn body(letter: u8, mark: u8, rest: &[u8]) -> Result<Line, Unreadable>
    ensures { result ≡ body_of letter mark rest.now }
{
    if rest.len() != 38 || rest[37] != b'\n' {
        return Err(Unreadable);
    }
    Ok(Line {
        letter,
        mark,
        five: field(rest, 0, 5)?,
        first: field(rest, 5, 8)?,
        second: field(rest, 13, 8)?,
        third: field(rest, 21, 8)?,
        fourth: field(rest, 29, 8)?,
    })
}

// The line that forty bytes hold: they are just what that line is written as.
impl TryFrom<&[u8]> for Line {
    type Error = Unreadable;

    ghost try_from_gives = { λ bytes result. Reads bytes.now result };

    fn try_from(bytes: &[u8]) -> Result<Line, Unreadable> {
        match bytes {
            [letter, mark, rest @ ..] => body(*letter, *mark, rest),
            _ => Err(Unreadable),
        }
    }
}
