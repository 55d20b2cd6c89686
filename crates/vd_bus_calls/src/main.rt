//! Makes the calls that its input names, a line each, on a bus, and prints the answer to each.
#![tactic(auto)]

mod buses;
mod calls;

use std::io;

fn main(rt: HostRuntime) -> io::Result<()> {
    let mut bus = buses::bus_of(0);
    for line in rt.lines(rt.alloc()) {
        let line = line?;
        let text = calls::answer(rt.alloc(), &mut bus, line.as_str())?;
        println!(rt; "{text}")?;
    }
    Ok(())
}
