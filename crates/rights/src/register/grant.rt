ghost use Rattle.std.specs.Prelude.{◌≡◌, OnErr};
ghost use Rattle.rulings.specs.Ranking.{Ranking};
ghost use Rattle.model.specs.Calls.Call.{granting};
ghost use Rattle.model.specs.Calls.Reply.{granted};
ghost use Rattle.model.specs.Grants.{key_of};
ghost use Rattle.model.specs.Meaning.{reply, next};
ghost use Rattle.model.specs.Promises.{RefusedToStayConsistent};
ghost use Rattle.model.specs.Refusals.{refusal, topmost};
ghost use Rattle.rights.specs.Contents.{contents};
ghost use Rattle.rights.specs.Faults.{refused_by, replied, TellsGrant};
ghost use Rattle.rights.specs.Granting.{Found, rows_of_grants};

use crate::faults::RegisterFault;
use crate::marks::{closes_circle, is_entitled};
use crate::register::Register;
use crate::register::checks::{key_in_range, refuse_if};
use model::{DraftRecord, GrantKey, GrantRecord};
use table::TableFault;
use terms::Kind;

impl Register<'_> {
    // Adds a standing grant by the caller to the account and tells its serial. Costs two passes over the drafts,
    // two over the grants and passes over those of the draft and right.
    pub fn grant(
        &mut self,
        draft: u16,
        right: u8,
        caller: u16,
        account: u16,
        kind: u8,
    ) -> Result<u16, RegisterFault>
        ensures told { (R : Ranking) → replied granted result ≡ reply R (contents self.old) (granting draft right caller account kind) }
        ensures left { (R : Ranking) → contents self.new ≡ next R (contents self.old) (granting draft right caller account kind) }
        ensures consistent { RefusedToStayConsistent (contents self.old) draft right caller account kind (replied granted result) }
        ensures same { OnErr result (self.new ≡ self.old) }
        ensures about { TellsGrant (key_of draft right caller account) result }
    {
        let key = GrantKey {
            draft,
            right,
            grantor: caller,
            account,
        };
        let (found, kind) = self.may_grant(key, kind)?;
        let serial = found.last + 1;
        let granted = GrantRecord {
            draft,
            right,
            grantor: caller,
            account,
            kind,
            serial,
        };
        let counted = DraftRecord {
            last: serial,
            ..found
        };
        // Neither table can refuse here: there is a cell for the grant, and the draft is open.
        self.grants.add(granted)?;
        self.drafts.replace(draft, counted)?;
        Ok(serial)
    }

    // The record of the draft and the kind told, where no row of the table refuses the grant.
    fn may_grant(&self, key: GrantKey, kind: u8) -> Result<(DraftRecord, Kind), RegisterFault>
        ensures refused { (R : Ranking) → refused_by result ≡ refusal R (contents self.now) (granting key.draft key.right key.grantor key.account kind) }
        ensures found { Found (contents self.now) key.draft kind result }
        ensures about { TellsGrant key result }
    {
        key_in_range(key)?;
        let kind = Kind::try_from(kind)?;
        let Some(found) = self.drafts.find(key.draft) else {
            return Err(RegisterFault::from(TableFault::Absent(key.draft)));
        };
        self.may_add(key, &found)?;
        Ok((found, kind))
    }

    // The rows that look at the grants that stand.
    fn may_add(&self, key: GrantKey, found: &DraftRecord) -> Result<(), RegisterFault>
        ensures refused { refused_by result ≡ topmost (rows_of_grants (contents self.now) key found.now) }
        ensures about { TellsGrant key result }
    {
        let gathered = self.gather(key.draft, key.right);
        let marks = gathered.marks();
        let entitled = is_entitled(marks, found.owner, key.grantor);
        refuse_if(!entitled, RegisterFault::NotEntitled)?;
        self.grants.refuse_present(key)?;
        let circle = closes_circle(marks, key.grantor, key.account);
        refuse_if(circle, RegisterFault::Circle)?;
        let full = gathered.on_draft >= usize::from(found.cells);
        refuse_if(full, RegisterFault::DraftFull)?;
        refuse_if(found.last == u16::MAX, RegisterFault::SerialsSpent)
    }
}
