// The records of a register's two tables.
ghost use Rattle.std.specs.Prelude.{◌≡◌};
ghost use Rattle.model.specs.Grants.{key_of, mark_of};
ghost use Rattle.model.specs.Keys.{by_draft, by_grant};

use charts::Mark;
use table::Record;
use terms::Kind;

// An open draft: its owner, the policy by which requests on it are decided, how many grants it may hold,
// and the last serial given to one.
#[derive(Clone, Copy, Debug, PartialEq, Eq, Default)]
pub struct DraftRecord {
    pub draft: u16,
    pub owner: u16,
    pub policy: u8,
    pub cells: u16,
    pub last: u16,
}

// A standing grant of a right on a draft: who made it, whom it names, and what it does.
#[derive(Clone, Copy, Debug, PartialEq, Eq, Default)]
pub struct GrantRecord {
    pub draft: u16,
    pub right: u8,
    pub grantor: u16,
    pub account: u16,
    pub kind: Kind,
    pub serial: u16,
}

// A grantor makes at most one grant of a right on a draft to an account.
#[derive(Clone, Copy, Debug, PartialEq, Eq)]
pub struct GrantKey {
    pub draft: u16,
    pub right: u8,
    pub grantor: u16,
    pub account: u16,
}

impl GrantRecord {
    // What the grant goes by.
    pub fn key(&self) -> GrantKey
        ensures { result ≡ key_of self.now.draft self.now.right self.now.grantor self.now.account }
    {
        GrantKey {
            draft: self.draft,
            right: self.right,
            grantor: self.grantor,
            account: self.account,
        }
    }
}

impl Record for DraftRecord {
    type Key = u16;

    ghost has = { λ x key. by_draft key x };

    fn has_key(&self, key: u16) -> bool {
        self.draft == key
    }
}

impl Record for GrantRecord {
    type Key = GrantKey;

    ghost has = { λ x key. by_grant key x };

    fn has_key(&self, key: GrantKey) -> bool {
        self.key() == key
    }
}

// A grant as a line of the chart of its right.
impl From<&GrantRecord> for Mark {
    ghost from_gives = { λ g m. m ≡ mark_of g.now };

    fn from(grant: &GrantRecord) -> Mark {
        Mark {
            from: grant.grantor,
            to: grant.account,
            kind: grant.kind,
            serial: grant.serial,
        }
    }
}
