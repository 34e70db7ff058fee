// Prints the bytes of the house matrix grammar, parted by one space, in one line.
#![tactic(auto)]

use std::io;

fn main(rt: HostRuntime) -> io::Result<()> {
    for (i, b) in matrix::bytes().iter().enumerate() {
        let gap = if i == 0 { "" } else { " " };
        print!(rt; "{gap}{b}")?;
    }
    println!(rt; "")
}
