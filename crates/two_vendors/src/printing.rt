// The printed form of sheets, refusals and accounts.
use crate::account::Account;
use anyhow::anyhow;
use printed::{DayLine, RefusedDay};
use std::io;
use supplier::{Fault, Supplier};

/// Each line of the sheet.
pub(crate) fn print_sheet<S: Supplier>(rt: &HostRuntime, supplier: &S) -> io::Result<()> {
    let day = supplier.days();
    for line in (0..supplier.lines()).filter_map(|i| supplier.line(i)) {
        let text = DayLine { day, line };
        println!(rt; "{text}")?;
    }
    Ok(())
}

/// The refusal of a day.
pub(crate) fn print_fault(rt: &HostRuntime, fault: Fault) -> io::Result<()> {
    let text = RefusedDay(fault);
    println!(rt; "{text}")
}

/// The totals of an account, which balance with the pieces that the sheet holds.
pub(crate) fn print_account<S: Supplier>(
    rt: &HostRuntime,
    account: &Account<S>,
) -> anyhow::Result<()> {
    let line = account.supplier.line(0).ok_or_else(|| anyhow!("no line"))?;
    let number = line.number;
    let (ordered, delivered) = account.totals();
    let to_come = account.to_come();
    if to_come != line.held {
        return Err(anyhow!("the account does not balance"));
    }
    println!(rt; "{number}: ordered {ordered}, delivered {delivered}, to come {to_come}")?;
    Ok(())
}
