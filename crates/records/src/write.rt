// From a line to bytes.
ghost use Rattle.std.specs.Prelude.{◌≡◌};
ghost use Rattle.records.specs.Writing.{digits_of};
ghost use Rattle.records.specs.Conversions.{Writes};

use crate::line::Line;

// The last N decimal digits of a number, the highest first: written from the last place on, as they come. By place,
// since an adapter of `iter_mut` tells a proof nothing of what was written.
fn digits<const N: usize>(n: u32) -> [u8; N]
    ensures { result ≡ digits_of N n }
{
    let mut digits = [b'0'; N];
    let mut left = n;
    for place in (0..N).rev() {
        digits[place] = b'0' + (left % 10) as u8;
        left /= 10;
    }
    digits
}

// Each number by its last digits: a line whose numbers all have room is what reading the bytes
// gives back. By the place of each field: a writer of the next digits would say no more.
impl From<Line> for [u8; 40] {
    ghost from_gives = { Writes };

    fn from(line: Line) -> [u8; 40] {
        let mut bytes = [b'\n'; 40];
        bytes[0] = line.letter;
        bytes[1] = line.mark;
        bytes[2..7].copy_from_slice(&digits::<5>(line.five));
        bytes[7..15].copy_from_slice(&digits::<8>(line.first));
        bytes[15..23].copy_from_slice(&digits::<8>(line.second));
        bytes[23..31].copy_from_slice(&digits::<8>(line.third));
        bytes[31..39].copy_from_slice(&digits::<8>(line.fourth));
        bytes
    }
}
