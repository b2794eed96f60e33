// Replays a list of calls on a pile three layers deep, and prints each call with its answer.
#![tactic(auto)]

mod parsing;
mod printing;

use assemblies::{Assembling, Assembly};
use delays::{Delay, Delaying};
use envelope::{Bucket, Root};
use parsing::Asked;
use pile::replay;
use printing::Told;
use stages::{Stage, Staging};
use vendors::{Calendar, Pipeline};

/// A stage over an assembly of a delayed calendar vendor and a stage over a pipeline vendor.
type Pile = Stage<Assembly<Delay<Calendar>, Stage<Pipeline>>>;

/// The pile, with no day taken.
fn pile() -> Pile {
    let left = Delaying::over(Calendar::new(1, 9, 2, 100), 2, 1);
    let right = Staging::over(Pipeline::new(3, 4, 60), 4, 2, 2, 64, &Root::new(10, 144));
    let kits = Assembling::over(left, right, 5, 1, 2);
    Staging::over(kits, 6, 1, 3, 26, &Bucket::new(8, 10, 4))
}

/// Reads a call from each line of standard input, replays them, and prints the answers.
fn run(rt: &HostRuntime) -> anyhow::Result<()> {
    let mut calls = Vec::new(rt.alloc());
    for line in rt.lines(rt.alloc()) {
        let Asked(call) = line?.as_str().parse()?;
        calls.push(call)?;
    }
    let mut pile = pile();
    let events = replay(rt.alloc(), &mut pile, calls.as_slice())?;
    for event in events.iter() {
        println!(rt; "{}", Told(*event))?;
    }
    Ok(())
}

fn main(rt: HostRuntime) -> anyhow::Result<()> {
    run(&rt)
}
