// Plays the scripts that its arguments name, and says of each whether it printed its stored transcript.
#![tactic(auto)]

use std::{env, fs};

fn play(rt: &HostRuntime, name: &str) -> anyhow::Result<()> {
    let heap = rt.alloc();
    let text = fs::read(rt, format!(in heap; "{name}.txt")?.as_str())?;
    let expected = fs::read(rt, format!(in heap; "{name}.out")?.as_str())?;
    let printed = script::play(heap, text.as_slice())?;
    if printed.as_bytes() == expected.as_slice() {
        println!(rt; "{name}: as expected")?;
    } else {
        println!(rt; "{name}: otherwise:\n{printed}")?;
    }
    Ok(())
}

fn main(rt: HostRuntime) -> anyhow::Result<()> {
    for name in env::args(&rt)?.skip(1) {
        play(&rt, name.as_str())?;
    }
    Ok(())
}
