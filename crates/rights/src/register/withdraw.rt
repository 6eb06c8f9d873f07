ghost use Rattle.std.specs.Prelude.{◌≡◌, ℕ, ◌||◌, Some, OnErr, ◌==◌};
ghost use Rattle.charts.specs.Members.{member};
ghost use Rattle.charts.specs.Reaching.{above};
ghost use Rattle.rulings.specs.Ranking.{Ranking};
ghost use Rattle.model.specs.Calls.Call.{withdrawing};
ghost use Rattle.model.specs.Calls.Reply.{withdrawn};
ghost use Rattle.model.specs.Delegation.{passing_of, unless};
ghost use Rattle.model.specs.Grants.{key_of, of_right};
ghost use Rattle.model.specs.Meaning.{reply, next};
ghost use Rattle.model.specs.Promises.{LeavesLargestRest};
ghost use Rattle.model.specs.Refusals.{refusal};
ghost use Rattle.model.specs.State.{draft_of};
ghost use Rattle.rights.specs.Contents.{contents};
ghost use Rattle.rights.specs.Faults.{refused_by, replied, TellsGrant};
ghost use Rattle.rights.specs.Finding.{FoundDraft};
ghost use Rattle.rights.specs.Withdrawing.{stays_with};

use crate::faults::RegisterFault;
use crate::marks::place_of;
use crate::register::Register;
use crate::register::checks::key_in_range;
use charts::{Accounts, Marks, Passing, Without, search};
use model::{DraftRecord, GrantKey, GrantRecord};
use table::{Retain, TableFault};

impl Register<'_> {
    // Takes away the caller's grant to the account, and then every grant of the right whose grantor is not the owner
    // and is not reached from the owner by delegatable grants that are left; tells how many fell, that one counted.
    // Costs a pass over the drafts, three over the grants and passes over those of the draft and right.
    pub fn withdraw(
        &mut self,
        draft: u16,
        right: u8,
        caller: u16,
        account: u16,
    ) -> Result<u16, RegisterFault>
        ensures told { (R : Ranking) → replied withdrawn result ≡ reply R (contents self.old) (withdrawing draft right caller account) }
        ensures left { (R : Ranking) → contents self.new ≡ next R (contents self.old) (withdrawing draft right caller account) }
        ensures largest { LeavesLargestRest (contents self.old) (contents self.new) draft right caller account (replied withdrawn result) }
        ensures same { OnErr result (self.new ≡ self.old) }
        ensures about { TellsGrant (key_of draft right caller account) result }
    {
        let key = GrantKey {
            draft,
            right,
            grantor: caller,
            account,
        };
        let found = self.may_withdraw(key)?;
        let reached = self.reached_without(key, &found);
        let rule = StillRooted {
            key,
            owner: found.owner,
            reached,
        };
        let fell = self.grants.retain(&rule);
        Ok(fell as u16)
    }

    // The record of the draft, where no row of the table refuses the withdrawal.
    fn may_withdraw(&self, key: GrantKey) -> Result<DraftRecord, RegisterFault>
        ensures refused { (R : Ranking) → refused_by result ≡ refusal R (contents self.now) (withdrawing key.draft key.right key.grantor key.account) }
        ensures found { FoundDraft (contents self.now) key.draft result }
        ensures about { TellsGrant key result }
    {
        key_in_range(key)?;
        let Some(found) = self.drafts.find(key.draft) else {
            return Err(RegisterFault::from(TableFault::Absent(key.draft)));
        };
        self.grants.find(key).ok_or(TableFault::Absent(key))?;
        Ok(found)
    }

    // The accounts to which delegatable grants lead from the owner once the grant with the key is gone.
    fn reached_without(&self, key: GrantKey, found: &DraftRecord) -> Accounts
        requires { draft_of key.draft (contents self.now) ≡ Some found.now }
        ensures { (a : ℕ) → member result a ≡ above (passing_of (unless key.grantor key.account (of_right key.draft key.right (contents self.now).grants))) found.now.owner a }
    {
        let gathered = self.gather(key.draft, key.right);
        let marks = gathered.marks();
        let at = place_of(marks, key.grantor, key.account).unwrap_or(marks.len());
        let chart = Marks { marks };
        let left = Without { chart: &chart, at };
        search(&Passing { chart: &left }, found.owner)
    }
}

// Keeps all grants but the one with the key and, of the same draft and right, those whose grantor is neither the
// owner nor reached.
#[derive(Clone, Copy)]
struct StillRooted {
    key: GrantKey,
    owner: u16,
    reached: Accounts,
}

impl Retain<GrantRecord> for StillRooted {
    ghost stays = { λ s g. stays_with s.key (λ a. (a == s.owner) || member s.reached a) g };

    fn keeps(&self, item: &GrantRecord) -> bool {
        if item.draft != self.key.draft || item.right != self.key.right {
            return true;
        }
        let named = item.key() == self.key;
        !named && (item.grantor == self.owner || self.reached.contains(item.grantor))
    }
}
