// The list program (document 01, "The list program"): lists the labelled file on standard input,
// one line for each row, or says why it is refused.
#![tactic(auto)]

use std::io;
use std::io::Write;

// Prints the listing of a file.
fn print(rt: &HostRuntime, file: &[u8]) -> io::Result<()> {
    let mut text = [0u8; 81920];
    let size = listing::write_listing(file, &mut text);
    io::writer(rt).write_all(&text[..size])
}

// Reads one byte more than the largest file that is listed: whatever fills the memory is too big. A read or a write that fails
// is told on standard error, with status 1.
fn main(rt: HostRuntime) -> io::Result<()> {
    let mut memory = [0u8; 65537];
    let read = input::read_up_to(&mut rt.stdin(), &mut memory);
    let size = read.map_err(|_| io::Error::other("standard input could not be read"))?;
    print(&rt, &memory[..size])
}
