ghost use Rattle.std.specs.Prelude.{◌≡◌, ◌≤◌, OnErr};
ghost use Rattle.model.specs.Calls.Call.{opening};
ghost use Rattle.model.specs.Calls.Reply.{done};
ghost use Rattle.rights.specs.Contents.{contents, lent_cells};
ghost use Rattle.rights.specs.Faults.{refused_by, replied, TellsDraft};
ghost use Rattle.model.specs.Meaning.{reply, next};
ghost use Rattle.model.specs.Refusals.{refusal};
ghost use Rattle.model.specs.State.{reserved};

use crate::faults::RegisterFault;
use crate::register::Register;
use crate::register::checks::{account_in_range, cells_in_range, policy_known, refuse_if};
use model::records::DraftRecord;
use rulings::Ruling;

impl Register<'_> {
    // Opens a draft for its owner and reserves its cells until it is closed. Costs two passes over
    // the drafts.
    pub fn open<R: Ruling>(
        &mut self,
        ruling: &R,
        draft: u16,
        owner: u16,
        policy: u8,
        cells: u16,
    ) -> Result<(), RegisterFault>
        ensures told { replied (λ _. done) result ≡ reply (R.ranking ruling.now) (contents self.old) (opening draft owner policy cells) }
        ensures left { contents self.new ≡ next (R.ranking ruling.now) (contents self.old) (opening draft owner policy cells) }
        ensures cells { lent_cells self.new ≡ lent_cells self.old }
        ensures same { OnErr result (self.new ≡ self.old) }
        ensures about { TellsDraft draft result }
    {
        let opened = DraftRecord {
            draft,
            owner,
            policy,
            cells,
            last: 0,
        };
        self.may_open(ruling, &opened)?;
        self.drafts.add(opened)?;
        Ok(())
    }

    // Whether no row of the table refuses the draft.
    fn may_open<R: Ruling>(&self, ruling: &R, opened: &DraftRecord) -> Result<(), RegisterFault>
        ensures refused { refused_by result ≡ refusal (R.ranking ruling.now) (contents self.now) (opening opened.now.draft opened.now.owner opened.now.policy opened.now.cells) }
        ensures about { TellsDraft opened.now.draft result }
    {
        account_in_range(opened.owner)?;
        policy_known(ruling, opened.policy)?;
        cells_in_range(opened.cells)?;
        self.drafts.refuse_present(opened.draft)?;
        self.drafts.refuse_full()?;
        let wanted = cells_reserved(self.drafts.used()) + usize::from(opened.cells);
        refuse_if(wanted > self.grants.room(), RegisterFault::NoCellsLeft)
    }
}

// The cells that all these drafts reserve.
fn cells_reserved(drafts: &[DraftRecord]) -> usize
    requires { reserved drafts.now ≤ 4096 }
    ensures { result ≡ reserved drafts.now }
{
    drafts.iter().map(|draft| usize::from(draft.cells)).sum()
}
