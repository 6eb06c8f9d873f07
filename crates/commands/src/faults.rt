// Why the stream refuses, with the position of the command's byte. A register's fault travels inside.
ghost use Rattle.std.specs.Prelude.{◌≡◌};
ghost use Rattle.commands.specs.declared.faults.StreamFault.TheVariants.{Register};
ghost use Rattle.commands.specs.Lines.{stream_number, layer_word};

use crate::command::Unread;
use rights::{Layer, RegisterFault};

#[derive(Clone, Copy, Debug, PartialEq, Eq)]
pub enum StreamFault {
    ShortBuffer(usize),
    Unread(usize, Unread),
    Register(usize, RegisterFault),
}

impl From<(usize, RegisterFault)> for StreamFault {
    ghost from_gives = { λ f r. r ≡ Register f.0 f.1 };

    fn from(fault: (usize, RegisterFault)) -> StreamFault {
        StreamFault::Register(fault.0, fault.1)
    }
}

impl StreamFault {
    pub fn number(self) -> u8
        ensures { result ≡ stream_number self }
    {
        match self {
            StreamFault::ShortBuffer(_) => 17,
            StreamFault::Unread(_, Unread::Unknown) => 18,
            StreamFault::Unread(_, Unread::CutOff) => 19,
            StreamFault::Register(_, fault) => fault.number(),
        }
    }

    // The layer that finds the fault, as a line names it.
    pub fn layer(self) -> &'static [u8]
        ensures { result.now ≡ layer_word self }
    {
        match self {
            StreamFault::Register(_, fault) => match fault.layer() {
                Layer::Table => b"table",
                Layer::Register => b"register",
            },
            _ => b"stream",
        }
    }
}
