// The lines that replies are written as.
ghost use Rattle.std.specs.Prelude.{◌≡◌, ◌<◌, ◌≤◌, ◌++◌, length, decimal};
ghost use Rattle.commands.specs.Lines.{answer, words, decision_words, refusal_words, layer_word, line, stream_number};
ghost use Rattle.text.specs.Text.{Puts};

use crate::faults::StreamFault;
use arrayvec::CapacityError;
use model::Decision;
use rights::Outcome;
use text::Text;

// No line is longer.
pub const LINE: usize = 32;

type Line = Text<LINE>;

// The line of what the command at a position gave.
pub(crate) fn line_of(at: usize, reply: Result<Outcome, StreamFault>) -> Line
    requires { at < 65536 }
    ensures { result ≡ line at (answer reply) }
{
    let mut text = Text::new();
    put_line(&mut text, at, reply).unwrap();
    text
}

#[tactic(auto, using(text::proofs::Lengths::lengths))]
fn put_line(
    text: &mut Line,
    at: usize,
    reply: Result<Outcome, StreamFault>,
) -> Result<(), CapacityError>
    requires { at < 65536 }
    ensures put { Puts LINE result text.old (line at (answer reply)) text.new }
    ensures short { length (line at (answer reply)) ≤ LINE }
{
    text.put_number(at)?;
    text.put(b" ")?;
    put_words(text, reply)?;
    text.put(b"\n")
}

fn put_words(text: &mut Line, reply: Result<Outcome, StreamFault>) -> Result<(), CapacityError>
    ensures put { Puts LINE result text.old (words (answer reply)) text.new }
    ensures short { length (words (answer reply)) ≤ 20 }
{
    match reply {
        Ok(Outcome::Done) => text.put(b"done"),
        Ok(Outcome::Closed(count)) => put_counted(text, b"closed ", count),
        Ok(Outcome::Granted(serial)) => put_counted(text, b"granted ", serial),
        Ok(Outcome::Withdrawn(count)) => put_counted(text, b"withdrawn ", count),
        Ok(Outcome::Decided(decision, decider)) => put_decision(text, decision, decider),
        Err(fault) => put_refusal(text, fault),
    }
}

#[tactic(auto, using(text::proofs::Lengths::lengths))]
fn put_counted(text: &mut Line, word: &[u8], count: u16) -> Result<(), CapacityError>
    requires { length word.now ≤ 15 }
    ensures put { Puts LINE result text.old (word.now ++ decimal count) text.new }
    ensures short { length (word.now ++ decimal count) ≤ 20 }
{
    text.put(word)?;
    text.put_number(count)
}

fn put_decision(
    text: &mut Line,
    decision: Decision,
    decider: Option<u16>,
) -> Result<(), CapacityError>
    ensures put { Puts LINE result text.old (decision_words decision decider) text.new }
    ensures short { length (decision_words decision decider) ≤ 20 }
{
    match (decision, decider) {
        (Decision::Permitted, Some(account)) => put_counted(text, b"permitted ", account),
        (Decision::Permitted, None) => text.put(b"permitted"),
        (Decision::Denied, Some(account)) => put_counted(text, b"denied ", account),
        (Decision::Denied, None) => text.put(b"denied"),
        (Decision::Undecided, _) => text.put(b"undecided"),
    }
}

#[tactic(auto, using(text::proofs::Lengths::lengths, crate::proofs::Words::layer_short))]
fn put_refusal(text: &mut Line, fault: StreamFault) -> Result<(), CapacityError>
    ensures put { Puts LINE result text.old (refusal_words (stream_number fault) (layer_word fault)) text.new }
    ensures short { length (refusal_words (stream_number fault) (layer_word fault)) ≤ 20 }
{
    text.put(b"refused ")?;
    text.put_number(fault.number())?;
    text.put(b" ")?;
    text.put(fault.layer())
}
