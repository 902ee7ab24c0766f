// Reads a candidate's records from standard input and writes the key to standard output.

#![tactic(auto)]

use key::whole::key_of;
use std::io::{Read, Write};

fn main(rt: HostRuntime) -> anyhow::Result<()> {
    let mut input = Vec::new(rt.alloc());
    rt.stdin().read_to_end(&mut input)?;
    let key = key_of(rt.alloc(), &input)?;
    rt.stdout().write_all(&key)?;
    Ok(())
}
