ghost use Rattle.std.specs.Prelude.{◌≡◌, not, OnErr};
ghost use Rattle.rulings.specs.Ranking.{Ranking};
ghost use Rattle.model.specs.Calls.Call.{closing};
ghost use Rattle.model.specs.Calls.Reply.{closed};
ghost use Rattle.rights.specs.Contents.{contents};
ghost use Rattle.rights.specs.Faults.{replied, TellsDraft};
ghost use Rattle.model.specs.Meaning.{reply, next};
ghost use Rattle.model.specs.Grants.{is_on_draft};

use crate::faults::RegisterFault;
use crate::register::Register;
use crate::register::checks::account_in_range;
use model::records::GrantRecord;
use table::{Retain, TableFault};

impl Register<'_> {
    // Closes the draft, drops its grants and its reservation, and tells how many grants stood; only its
    // owner may. Costs two passes over the drafts and one over the grants.
    pub fn close(&mut self, draft: u16, caller: u16) -> Result<u16, RegisterFault>
        ensures told { (R : Ranking) → replied closed result ≡ reply R (contents self.old) (closing draft caller) }
        ensures left { (R : Ranking) → contents self.new ≡ next R (contents self.old) (closing draft caller) }
        ensures same { OnErr result (self.new ≡ self.old) }
        ensures about { TellsDraft draft result }
    {
        account_in_range(caller)?;
        let Some(found) = self.drafts.find(draft) else {
            return Err(RegisterFault::from(TableFault::Absent(draft)));
        };
        if found.owner != caller {
            return Err(RegisterFault::NotOwner);
        }
        let dropped = self.grants.retain(&OtherDrafts { draft });
        self.drafts.remove(draft)?;
        Ok(dropped as u16)
    }
}

// Keeps the grants of every draft but one.
#[derive(Clone, Copy)]
struct OtherDrafts {
    draft: u16,
}

impl Retain<GrantRecord> for OtherDrafts {
    ghost stays = { λ s g. not (is_on_draft s.draft g) };

    fn keeps(&self, item: &GrantRecord) -> bool {
        item.draft != self.draft
    }
}
