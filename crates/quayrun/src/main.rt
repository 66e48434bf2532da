// Performs a script: lines from standard input, replies to standard output, each chunk's before the next is read.
#![tactic(auto)]

use holders::registers::Registers;
use interpreter::running::Interpreter;
use ordered::agenda::OrderedAgenda;
use recording::Recording;
use std::io::{Read, Write};
use store::records::Records;
use store::store::Store;

fn run(rt: &HostRuntime) -> anyhow::Result<()> {
    let mut input = rt.stdin();
    let mut output = rt.stdout();
    let mut chunk = [0u8; 8192];
    let store = Store::new(Registers::new(), OrderedAgenda::new());
    let mut interpreter = Interpreter::new(rt.alloc(), Recording::new(store));
    // to the end of the input; the range says that the loop ends
    for _ in 0..u64::MAX {
        let count = input.read(&mut chunk)?;
        if count == 0 {
            break;
        }
        interpreter.feed(&chunk[..count])?;
        output.write_all(interpreter.output())?;
        output.flush()?;
        interpreter.clear_output();
    }
    interpreter.finish()?;
    output.write_all(interpreter.output())?;
    output.flush()?;
    Ok(())
}

fn main(rt: HostRuntime) -> anyhow::Result<()> {
    run(&rt)
}
