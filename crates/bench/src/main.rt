// Runs the script on standard input and writes its printout to standard output.
#![tactic(auto)]

use input::read_full;
use room::SIZE;
use script::CAPACITY;
use std::io;
use std::io::Write;

fn main(rt: HostRuntime) -> io::Result<()> {
    // one byte more than a text may have, so that a longer one is seen to be too long
    let mut text = [0u8; 65537];
    let length = read_full(&mut rt.stdin(), &mut text)?;
    let mut room = [0u64; SIZE];
    let mut out = [0u8; CAPACITY];
    let printed = script::run(&text[..length], &mut room, &mut out);
    rt.stdout().write_all(&out[..printed])
}
