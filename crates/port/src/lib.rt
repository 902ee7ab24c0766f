// The engine for a program in C or Rust that links it.

#![tactic(auto)]

ghost use Rattle.std.specs.Prelude.{◌≡◌, length};
ghost use Rattle.whole_key.specs.Keys.{key_of};
ghost use Rattle.port.specs.Ported.{Ported};

use whole_key::lent::key_into;

// Writes the key of the input into the bytes that are lent, and gives the number of its bytes; or the
// largest number there is, where too few are lent.
#[unsafe(no_mangle)]
pub extern "C" fn bojuaty_key(input: &[u8], out: &mut [u8]) -> u64
    ensures { Ported (key_of input.now) (length out.old) out.new result }
{
    key_into(input, out).map_or(u64::MAX, |count| count as u64)
}
