// Holds the two agendas against each other, and takes a day's events from the ordered one.
#![tactic(auto)]

use comparison::rounds_alike;
use day::show_day;
use std::io;

mod change;
mod comparison;
mod day;

const ROUNDS: u32 = 4000;

fn main(rt: HostRuntime) -> io::Result<()> {
    let alike = rounds_alike(ROUNDS);
    println!(rt; "{alike} of {ROUNDS} rounds of questions answered alike")?;
    show_day(&rt)
}
