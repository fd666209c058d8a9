// Plays the run script on standard input, and writes its transcript to standard output.
#![tactic(auto)]

use std::io::{Read, Write};

fn main(rt: HostRuntime) -> anyhow::Result<()> {
    let mut text = Vec::new(rt.alloc());
    rt.stdin().read_to_end(&mut text)?;
    let transcript = script::play(rt.alloc(), text.as_slice())?;
    rt.stdout().write_all(transcript.as_bytes())?;
    Ok(())
}
