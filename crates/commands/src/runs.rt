// A whole stream.
ghost use Rattle.std.specs.Prelude.{◌≡◌, is_ok, IfOk, if◌then◌else◌, OnErr};
ghost use Rattle.rulings.specs.Ranking.{Ranking};
ghost use Rattle.model.specs.Law.{Law};
ghost use Rattle.rights.specs.Contents.{contents};
ghost use Rattle.commands.specs.Stream.{counted, commands, lines, left_by};

use crate::line::LINE;
use crate::steps::{counted, step};
use rights::Register;
use rulings::Ruling;
use std::alloc::{AllocError, Global};

// The lines of all commands of the input, in memory that is reserved before the first: where that is
// wanting, nothing happens. The law says what holds after every history of calls on a newly built register.
// Costs what the commands' calls cost, and 32 bytes for each byte that counts.
pub fn run<R: Ruling>(
    heap: Global,
    register: &mut Register,
    ruling: &R,
    input: &[u8],
) -> Result<Vec<u8>, AllocError>
    ensures value { IfOk result (λ v. v.items ≡ lines (R.ranking ruling.now) (contents register.old) (commands (counted input.now))) }
    ensures left { contents register.new ≡ (if is_ok result then left_by (R.ranking ruling.now) (contents register.old) (commands (counted input.now)) else contents register.old) }
    ensures same { OnErr result (register.new ≡ register.old) }
    ensures law { Law }
{
    let end = counted(input).len();
    let mut out = Vec::with_capacity(heap, LINE * end)?;
    // A run is made of steps, and each puts its line into a buffer of its caller.
    let mut line = [0; LINE];
    let mut at = 0;
    // The buffer has room for a line.
    while let Some(told) = step(register, ruling, input, at, &mut line).unwrap() {
        out.extend_from_slice(&line[..told.length])?;
        at = told.next;
    }
    Ok(out)
}
