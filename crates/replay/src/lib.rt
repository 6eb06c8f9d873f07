// Histories: calls replayed, one after another, on a register. Each call comes with a ruling of its
// own in hand, and each sheet with a buffer of its own.
#![tactic(auto)]

ghost use Rattle.std.specs.Prelude.{◌≡◌, map, is_ok, IfOk, if◌then◌else◌};
ghost use Rattle.rulings.specs.Ranking.{Ranking};
ghost use Rattle.model.specs.Examples.{WorkedExamples};
ghost use Rattle.model.specs.History.{replies};
ghost use Rattle.model.specs.Law.{Law};
ghost use Rattle.model.specs.Meaning.{reply, next};
ghost use Rattle.rights.specs.Contents.{contents};
ghost use Rattle.replay.specs.Replays.{call_made, said, history_of, LeftBy};

use rights::{Call, Outcome, Register, RegisterFault};
use rulings::Ruling;
use std::alloc::{AllocError, Global};

// A call, or a sheet, which is written into a new buffer of so many bytes, all 0.
#[derive(Clone, Copy)]
pub enum Step {
    Call(Call),
    Sheet { draft: u16, right: u8, room: usize },
}

// A step, with the ruling in hand.
#[derive(Clone, Copy)]
pub struct Made<R> {
    pub ruling: R,
    pub step: Step,
}

// What a step replied; a sheet comes with its buffer.
#[derive(Drop)]
pub enum Replied {
    Call(Result<Outcome, RegisterFault>),
    Sheet(Result<usize, RegisterFault>, Vec<u8>),
}

// Makes the calls of a history on the register, and tells the replies. The law says what holds after every history
// on a newly built register. Its one failure is want of memory, for the replies or a sheet: the register is then as
// the calls that were made have left it.
pub fn replay<R: Ruling>(
    heap: Global,
    register: &mut Register,
    history: &[Made<R>],
) -> Result<Vec<Replied>, AllocError>
    ensures replies { IfOk result (λ v. map said v.items ≡ replies (contents register.old) (history_of R.ranking R.laws history.now)) }
    ensures left { LeftBy result (contents register.old) (contents register.new) (history_of R.ranking R.laws history.now) }
    ensures law { Law }
    ensures examples { WorkedExamples }
{
    let mut replies = Vec::new(heap);
    for made in history {
        replies.push(make(heap, register, &made.ruling, made.step)?)?;
    }
    Ok(replies)
}

// One step on the register.
fn make<R: Ruling>(
    heap: Global,
    register: &mut Register,
    ruling: &R,
    step: Step,
) -> Result<Replied, AllocError>
    ensures told { IfOk result (λ p. said p ≡ reply (R.ranking ruling.now) (contents register.old) (call_made step)) }
    ensures left { contents register.new ≡ (if is_ok result then next (R.ranking ruling.now) (contents register.old) (call_made step) else contents register.old) }
{
    match step {
        Step::Call(call) => Ok(Replied::Call(register.obey(ruling, call))),
        Step::Sheet { draft, right, room } => {
            let mut page = vec![in heap; 0; room]?;
            let told = register.sheet(ruling, draft, right, &mut page);
            Ok(Replied::Sheet(told, page))
        }
    }
}
