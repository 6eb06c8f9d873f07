ghost use Rattle.std.specs.Prelude.{◌≡◌, OnErr};
ghost use Rattle.model.specs.Calls.Call.{policing};
ghost use Rattle.model.specs.Calls.Reply.{done};
ghost use Rattle.rights.specs.Contents.{contents, lent_cells};
ghost use Rattle.rights.specs.Faults.{replied, TellsDraft};
ghost use Rattle.model.specs.Meaning.{reply, next};

use crate::faults::RegisterFault;
use crate::register::Register;
use crate::register::checks::{account_in_range, policy_known};
use model::records::DraftRecord;
use rulings::Ruling;
use table::TableFault;

impl Register<'_> {
    // Sets the draft's policy; only its owner may. Costs two passes over the drafts up to it.
    pub fn policy<R: Ruling>(
        &mut self,
        ruling: &R,
        draft: u16,
        caller: u16,
        policy: u8,
    ) -> Result<(), RegisterFault>
        ensures told { replied (λ _. done) result ≡ reply (R.ranking ruling.now) (contents self.old) (policing draft caller policy) }
        ensures left { contents self.new ≡ next (R.ranking ruling.now) (contents self.old) (policing draft caller policy) }
        ensures cells { lent_cells self.new ≡ lent_cells self.old }
        ensures same { OnErr result (self.new ≡ self.old) }
        ensures about { TellsDraft draft result }
    {
        account_in_range(caller)?;
        policy_known(ruling, policy)?;
        let Some(found) = self.drafts.find(draft) else {
            return Err(RegisterFault::from(TableFault::Absent(draft)));
        };
        if found.owner != caller {
            return Err(RegisterFault::NotOwner);
        }
        self.drafts.replace(draft, DraftRecord { policy, ..found })?;
        Ok(())
    }
}
