//! `mls_growths`: makes calls that may run out of memory, and prints what they return and all that stands after them.
//!
//! Each line of the input names a row: a call, and what it is made on. A number after the name has something else done
//! in place of the first call, which leaves what stands where that call is refused halfway. Each row is set up three
//! times, and its call is made never, once and twice. `setup` is printed before anything is set up, `made` right before
//! the first call and `done` right after it, so that whoever refuses growths from outside knows which are the call's.
#![tactic(auto)]

mod calls;
mod checks;
mod frugal;
mod libraries;
mod making;
mod ready;
mod rows;
mod runs;
mod scene;
mod scripts;
mod seats;
mod servers;
mod shown;

use anyhow::Result;
use rows::take_all;
use std::alloc::Global;
use std::io::Read;

fn main(rt: HostRuntime) -> Result<()> {
    let text = read_input(rt.alloc(), rt.stdin())?;
    for line in text.lines() {
        take_all(&rt, rt.alloc(), line)?;
    }
    Ok(())
}

/// Reads the whole input.
fn read_input<I: Read + Drop>(alloc: Global, mut input: I) -> Result<String> {
    let mut text = String::new(alloc);
    input.read_to_string(&mut text)?;
    Ok(text)
}
