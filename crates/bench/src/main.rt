//! Sweeps every view of a large plan forward and back, and prints a hash of all results; asked to, its speed besides.
#![tactic(auto)]

mod arguments;
mod hash;
mod scanner;
mod speed;
mod timed;

use anyhow::Result;
use arguments::Arguments;
use scanner::{planned, voxels};
use timed::sweep_all;
use values::count::Count;
use values::value::Value;

fn main(rt: HostRuntime) -> Result<()> {
    let arguments = Arguments::read(&rt)?;
    let plan = planned(rt.alloc(), &arguments)?;
    let mut volume = voxels(rt.alloc(), &plan)?;
    let mut working = vec![in rt.alloc(); Count::ZERO; plan.places()]?;
    let speeds = sweep_all(&rt, &plan, &mut volume, &mut working)?;
    println!(rt; "{arguments}")?;
    println!(rt; "hash {}", hash::of(&working, &volume))?;
    if arguments.timed {
        println!(rt; "forward {}", speeds.forward)?;
        println!(rt; "back {}", speeds.back)?;
    }
    Ok(())
}
