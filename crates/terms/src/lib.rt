// The words that every layer shares: what a grant does, what a ruling looks at in a grant, and the
// limits of the register.
#![tactic(auto)]

ghost use Rattle.std.specs.Prelude.{◌≡◌};
ghost use Rattle.terms.specs.Kinds.{kind_from};

// What a grant does: it denies the right, gives it, or gives it together with the leave to grant it on. The
// kinds are in order from the strictest.
#[derive(Clone, Copy, Debug, PartialEq, Eq, PartialOrd, Ord, Default)]
pub enum Kind {
    #[default]
    Denying,
    Plain,
    Delegatable,
}

// A number that stands for no kind.
#[derive(Clone, Copy, Debug, PartialEq, Eq)]
pub struct UnknownKind(pub u8);

impl TryFrom<u8> for Kind {
    type Error = UnknownKind;

    ghost try_from_gives = { λ n r. r ≡ kind_from n };

    fn try_from(number: u8) -> Result<Kind, UnknownKind> {
        match number {
            0 => Ok(Kind::Denying),
            1 => Ok(Kind::Plain),
            2 => Ok(Kind::Delegatable),
            _ => Err(UnknownKind(number)),
        }
    }
}

// What a ruling looks at in a grant.
#[derive(Clone, Copy, Debug, PartialEq, Eq)]
pub struct Claim {
    pub kind: Kind,
    pub grantor: u16,
    pub serial: u16,
}

// Accounts are numbered below this, and rights below that.
pub const ACCOUNTS: u16 = 512;

pub const RIGHTS: u8 = 8;

// How many draft places and grant cells of a register count.
pub const PLACES: usize = 256;

pub const CELLS: usize = 4096;

// The most cells that one draft may reserve.
pub const DRAFT_CELLS: u16 = 1024;
