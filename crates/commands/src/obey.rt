// A command as a call on the register.
ghost use Rattle.std.specs.Prelude.{◌≡◌, OnErr};
ghost use Rattle.rulings.specs.Ranking.{Ranking};
ghost use Rattle.rights.specs.Contents.{contents};
ghost use Rattle.model.specs.Meaning.{reply, next};
ghost use Rattle.rights.specs.Making.{call_of};
ghost use Rattle.commands.specs.Lines.{answer, TellsPosition};
ghost use Rattle.commands.specs.Lines.Said.{by_call};

use crate::faults::StreamFault;
use rights::{Call, Outcome, Register};
use rulings::Ruling;

// Makes the command's call; a fault carries the command's position.
pub(crate) fn obey<R: Ruling>(
    register: &mut Register,
    ruling: &R,
    call: Call,
    at: usize,
) -> Result<Outcome, StreamFault>
    ensures told { answer result ≡ by_call (reply (R.ranking ruling.now) (contents register.old) (call_of call)) }
    ensures left { contents register.new ≡ next (R.ranking ruling.now) (contents register.old) (call_of call) }
    ensures same { OnErr result (register.new ≡ register.old) }
    ensures about { TellsPosition at result }
{
    register
        .obey(ruling, call)
        .map_err(|fault| StreamFault::from((at, fault)))
}
