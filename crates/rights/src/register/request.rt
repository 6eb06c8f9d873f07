ghost use Rattle.std.specs.Prelude.{◌≡◌, Some};
ghost use Rattle.settlement.specs.Picking.{settled};
ghost use Rattle.model.specs.Calls.Call.{requesting};
ghost use Rattle.model.specs.Calls.Reply.{decided};
ghost use Rattle.model.specs.Delegation.{lines_of, signs_of};
ghost use Rattle.model.specs.Grants.{of_right};
ghost use Rattle.model.specs.Law.{AnswersByTheList};
ghost use Rattle.model.specs.Meaning.{reply};
ghost use Rattle.model.specs.Refusals.{topmost};
ghost use Rattle.model.specs.Sheets.{answer, by_pick};
ghost use Rattle.rights.specs.Asking.{rows_of_asking};
ghost use Rattle.rights.specs.Contents.{contents};
ghost use Rattle.rights.specs.Faults.{refused_by, replied, TellsDraft};
ghost use Rattle.rights.specs.Finding.{FoundDraft};

use crate::answering::decide;
use crate::faults::RegisterFault;
use crate::marks::is_named;
use crate::register::Register;
use crate::register::checks::{account_in_range, policy_known, right_in_range};
use charts::Marks;
use model::{Decision, DraftRecord};
use rulings::Ruling;
use settlement::settle;
use table::TableFault;

impl Register<'_> {
    // The decision on an account's request and the account whose grant decides. Costs a pass over the drafts and
    // one over the grants, and a settlement where a grant names the account.
    pub fn request<R: Ruling>(
        &self,
        ruling: &R,
        draft: u16,
        right: u8,
        account: u16,
    ) -> Result<(Decision, Option<u16>), RegisterFault>
        ensures told { replied decided result ≡ reply (R.ranking ruling.now) (contents self.now) (requesting draft right account) }
        ensures settled { AnswersByTheList (contents self.now) (R.ranking ruling.now) draft right account (replied decided result) }
        ensures about { TellsDraft draft result }
    {
        account_in_range(account)?;
        let found = self.may_ask(ruling, draft, right)?;
        Ok(self.answer(ruling, draft, right, account, &found))
    }

    // The record of the draft, where the right and the draft are such that its grants can be settled.
    pub(crate) fn may_ask<R: Ruling>(
        &self,
        ruling: &R,
        draft: u16,
        right: u8,
    ) -> Result<DraftRecord, RegisterFault>
        ensures refused { refused_by result ≡ topmost (rows_of_asking (R.ranking ruling.now) (contents self.now) draft right) }
        ensures found { FoundDraft (contents self.now) draft result }
        ensures about { TellsDraft draft result }
    {
        right_in_range(right)?;
        let Some(found) = self.drafts.find(draft) else {
            return Err(RegisterFault::from(TableFault::Absent(draft)));
        };
        policy_known(ruling, found.policy)?;
        Ok(found)
    }

    // What the settled list decides; an account that no grant names is not worth a settlement.
    fn answer<R: Ruling>(
        &self,
        ruling: &R,
        draft: u16,
        right: u8,
        account: u16,
        found: &DraftRecord,
    ) -> (Decision, Option<u16>)
        ensures { result ≡ answer (R.ranking ruling.now) found.now (of_right draft right (contents self.now).grants) account }
    {
        if account == found.owner {
            return (Decision::Permitted, Some(account));
        }
        self.answer_another(ruling, draft, right, account, found)
    }

    // What decides for another account than the owner. It stands apart from `answer`, since a function pays for the
    // size of its marks as soon as it is called.
    fn answer_another<R: Ruling>(
        &self,
        ruling: &R,
        draft: u16,
        right: u8,
        account: u16,
        found: &DraftRecord,
    ) -> (Decision, Option<u16>)
        ensures { let marks = of_right draft right (contents self.now).grants in
            result ≡ by_pick marks (settled (lines_of marks) (signs_of marks) found.now.owner (R.ranking ruling.now) found.now.policy account) }
    {
        let gathered = self.gather(draft, right);
        let marks = gathered.marks();
        if !is_named(marks, account) {
            return (Decision::Undecided, None);
        }
        let picks = settle(&Marks { marks }, found.owner, ruling, found.policy);
        decide(marks, picks.pick(account))
    }
}
