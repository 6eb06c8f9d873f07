// One command of a stream: read, obeyed and answered by a line.
ghost use Rattle.std.specs.Prelude.{◌≡◌, ◌≤◌, true, length, OnErr};
ghost use Rattle.rulings.specs.Ranking.{Ranking};
ghost use Rattle.rights.specs.Contents.{contents};
ghost use Rattle.commands.specs.Format.{parsed};
ghost use Rattle.commands.specs.Steps.{told, if_line, line_length};
ghost use Rattle.commands.specs.Stream.{counted, command_at, rest_of, answered, carried, line_at, is_refused};
ghost use Rattle.commands.specs.Lines.{answer, TellsPosition};
ghost use Rattle.text.specs.Text.{over};

use crate::command::parse;
use crate::faults::StreamFault;
use crate::line::{LINE, line_of};
use crate::obey::obey;
use rights::{Outcome, Register};
use rulings::Ruling;

// How many bytes of an input count.
pub const STREAM: usize = 65536;

// A line of this length was written, and the next command is at that position.
#[derive(Clone, Copy, Debug, PartialEq, Eq)]
pub struct Stepped {
    pub length: usize,
    pub next: usize,
}

// Obeys the command at a position and writes its line, which is a refusal where the command is refused, to the front
// of the buffer; what lies behind keeps its contents. It tells nothing where the stream is finished, and refuses a
// buffer of fewer than 32 bytes itself. Costs what the command's call costs.
#[tactic(auto, using(crate::proofs::Positions::telling))]
pub fn step<R: Ruling>(
    register: &mut Register,
    ruling: &R,
    input: &[u8],
    at: usize,
    buffer: &mut [u8],
) -> Result<Option<Stepped>, StreamFault>
    ensures value { result ≡ told (counted input.now) at (length buffer.old) (line_at (R.ranking ruling.now) (contents register.old) (counted input.now) at) }
    ensures line { buffer.new ≡ if_line result (over buffer.old (line_at (R.ranking ruling.now) (contents register.old) (counted input.now) at)) buffer.old }
    ensures left { contents register.new ≡ if_line result (carried (R.ranking ruling.now) (contents register.old) (command_at (counted input.now) at)) (contents register.old) }
    ensures same { if_line result (is_refused (answered (R.ranking ruling.now) (contents register.old) (command_at (counted input.now) at))) true ≡ true → register.new ≡ register.old }
    ensures bound { line_length result ≤ 32 }
{
    let stream = counted(input);
    if at >= stream.len() {
        return Ok(None);
    }
    if buffer.len() < LINE {
        return Err(StreamFault::ShortBuffer(at));
    }
    let (reply, behind) = obey_front(register, ruling, &stream[at..], at);
    let text = line_of(at, reply);
    let line = text.as_bytes();
    buffer[..line.len()].copy_from_slice(line);
    Ok(Some(Stepped {
        length: line.len(),
        next: stream.len() - behind,
    }))
}

// The bytes of an input that count.
#[tactic(auto, using(std::proofs::lemmas::List::take_min))]
pub(crate) fn counted(input: &[u8]) -> &[u8]
    ensures value { result.now ≡ counted input.now }
    ensures few { length result.now ≤ STREAM }
{
    &input[..STREAM.min(input.len())]
}

// Obeys the command at the front of the bytes, and tells how many bytes lie behind it.
fn obey_front<R: Ruling>(
    register: &mut Register,
    ruling: &R,
    bytes: &[u8],
    at: usize,
) -> (Result<Outcome, StreamFault>, usize)
    ensures value { answer result.0 ≡ answered (R.ranking ruling.now) (contents register.old) (parsed bytes.now) }
    ensures rest { result.1 ≡ length (rest_of (parsed bytes.now)) }
    ensures left { contents register.new ≡ carried (R.ranking ruling.now) (contents register.old) (parsed bytes.now) }
    ensures same { OnErr result.0 (register.new ≡ register.old) }
    ensures about { TellsPosition at result.0 }
{
    match parse(bytes) {
        Ok((command, rest)) => (obey(register, ruling, command, at), rest.len()),
        Err(unread) => (Err(StreamFault::Unread(at, unread)), 0),
    }
}
