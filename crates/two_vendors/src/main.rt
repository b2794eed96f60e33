// Takes some weeks of orders at a pipeline and at a calendar vendor, and prints each day and what is still to come.
#![tactic(auto)]

mod account;
mod printing;

use account::Account;
use printing::{print_account, print_fault, print_sheet};
use std::io;
use supplier::Supplier;
use vendors::{Calendar, Pipeline};

/// Takes a day with the order q, and prints the sheet after it or the refusal.
fn take_day<S: Supplier>(rt: &HostRuntime, account: &mut Account<S>, q: u64) -> io::Result<()> {
    match account.day(q) {
        Ok(_) => print_sheet(rt, &account.supplier),
        Err(fault) => print_fault(rt, fault),
    }
}

/// Reads an order from each line of standard input, and asks it of both vendors.
fn run(rt: &HostRuntime) -> anyhow::Result<()> {
    let mut pipeline = Account::open(Pipeline::new(1, 4, 60));
    let mut calendar = Account::open(Calendar::new(2, 9, 2, 100));
    for line in rt.lines(rt.alloc()) {
        let q = line?.as_str().parse::<u64>()?;
        take_day(rt, &mut pipeline, q)?;
        take_day(rt, &mut calendar, q)?;
    }
    print_account(rt, &pipeline)?;
    print_account(rt, &calendar)?;
    Ok(())
}

fn main(rt: HostRuntime) -> anyhow::Result<()> {
    run(&rt)
}
