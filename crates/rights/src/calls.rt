// Calls as values, and what an obeyed one tells: all calls but sheets and lengths.
ghost use Rattle.std.specs.Prelude.{◌≡◌, OnErr};
ghost use Rattle.model.specs.Meaning.{reply, next};
ghost use Rattle.rights.specs.Contents.{contents};
ghost use Rattle.rights.specs.Faults.{replied};
ghost use Rattle.rights.specs.Making.{call_of, outcome, TellsOf};

use crate::faults::RegisterFault;
use crate::register::Register;
use model::Decision;
use rulings::Ruling;

// A kind comes as a number, since one that is no kind is a call too, and refused by a row of its own.
#[derive(Clone, Copy, Debug, PartialEq, Eq)]
pub enum Call {
    Open {
        draft: u16,
        owner: u16,
        policy: u8,
        cells: u16,
    },
    Close {
        draft: u16,
        caller: u16,
    },
    Grant {
        draft: u16,
        right: u8,
        caller: u16,
        account: u16,
        kind: u8,
    },
    Withdraw {
        draft: u16,
        right: u8,
        caller: u16,
        account: u16,
    },
    Policy {
        draft: u16,
        caller: u16,
        policy: u8,
    },
    Request {
        draft: u16,
        right: u8,
        account: u16,
    },
}

// What an obeyed call tells.
#[derive(Clone, Copy, Debug, PartialEq, Eq)]
pub enum Outcome {
    Done,
    Closed(u16),
    Granted(u16),
    Withdrawn(u16),
    Decided(Decision, Option<u16>),
}

impl Register<'_> {
    // Makes the call.
    pub fn obey<R: Ruling>(&mut self, ruling: &R, call: Call) -> Result<Outcome, RegisterFault>
        ensures told { replied outcome result ≡ reply (R.ranking ruling.now) (contents self.old) (call_of call) }
        ensures left { contents self.new ≡ next (R.ranking ruling.now) (contents self.old) (call_of call) }
        ensures same { OnErr result (self.new ≡ self.old) }
        ensures about { TellsOf call result }
    {
        match call {
            Call::Open {
                draft,
                owner,
                policy,
                cells,
            } => self
                .open(ruling, draft, owner, policy, cells)
                .map(|()| Outcome::Done),
            Call::Close { draft, caller } => self.close(draft, caller).map(Outcome::Closed),
            Call::Grant {
                draft,
                right,
                caller,
                account,
                kind,
            } => self
                .grant(draft, right, caller, account, kind)
                .map(Outcome::Granted),
            Call::Withdraw {
                draft,
                right,
                caller,
                account,
            } => self
                .withdraw(draft, right, caller, account)
                .map(Outcome::Withdrawn),
            Call::Policy {
                draft,
                caller,
                policy,
            } => self
                .policy(ruling, draft, caller, policy)
                .map(|()| Outcome::Done),
            Call::Request {
                draft,
                right,
                account,
            } => self
                .request(ruling, draft, right, account)
                .map(|(decision, decider)| Outcome::Decided(decision, decider)),
        }
    }
}
