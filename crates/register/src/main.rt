// Reads a command stream on standard input and prints one line for each command.
#![tactic(auto)]

use commands::{STREAM, run};
use model::{DraftRecord, GrantRecord};
use rights::Register;
use rulings::House;
use std::io;
use std::io::{Read, Write};
use terms::{CELLS, PLACES};

fn main(rt: HostRuntime) -> io::Result<()> {
    let heap = rt.alloc();
    let mut input = Vec::new(heap);
    rt.stdin().take(STREAM as u64).read_to_end(&mut input)?;
    let mut places = vec![in heap; DraftRecord::default(); PLACES]?;
    let mut cells = vec![in heap; GrantRecord::default(); CELLS]?;
    let mut register = Register::build(&mut places, &mut cells);
    let lines = run(heap, &mut register, &House, &input)?;
    rt.stdout().write_all(&lines)
}
