// Walks by tags over the books' diagrams and over an unclear one. What it prints is held to the stored output.
#![tactic(auto)]

mod lists;
mod unclear;

use books::{recadv, trial};
use lists::{TRIAL_WALKS, UNCLEAR_WALKS, write_text_walk, write_walk};
use std::alloc::AllocError;
use std::fs;
use std::io::{self, Write};
use unclear::Unclear;

// Real advices, by their tags.
const ADVICES: [&str; 3] = ["advice-5.edi", "advice-6.edi", "advice-7.edi"];

// All that writing to a vector can want is memory.
fn written(outcome: io::Result<()>) -> Result<(), AllocError> {
    outcome.map_err(|_| AllocError)
}

fn main(rt: HostRuntime) -> anyhow::Result<()> {
    let mut out = Vec::new(rt.alloc());
    for list in &TRIAL_WALKS {
        written(write_walk(&mut out, &trial::book(), list))?;
    }
    for list in &UNCLEAR_WALKS {
        written(write_walk(&mut out, &Unclear::new(), list))?;
    }
    for name in ADVICES {
        let text = fs::read(&rt, name)?;
        written(write_text_walk(&mut out, &recadv::book(), name, text.as_slice()))?;
    }
    rt.stdout().write_all(out.as_slice())?;
    Ok(())
}
