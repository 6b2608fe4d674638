// Reads the file `plan`, then standard input, and prints the listing of the plan's areas.
#![tactic(auto)]

mod fresh;

use anyhow::{bail, ensure};
use fresh::fresh_listing;
use plan::Plan;
use std::fs;
use std::io::{Read, Write};

// A message carries its quotation marks itself: what `main` answers is printed bare.
fn main(rt: HostRuntime) -> anyhow::Result<()> {
    let heap = rt.alloc();
    let bytes = fs::read(&rt, "plan")?;
    let mut input = Vec::new(heap);
    rt.stdin().read_to_end(&mut input)?;
    let plan = match Plan::read(heap, &bytes) {
        Ok(plan) => plan,
        Err(refusal) => {
            eprintln!(rt; "plan refused: {refusal}")?;
            bail!("\"plan refused\"");
        }
    };
    ensure!(input.is_empty(), "\"messages are not understood yet\"");
    let text = fresh_listing(heap, &plan)?;
    rt.stdout().write_all(&text)?;
    Ok(())
}
