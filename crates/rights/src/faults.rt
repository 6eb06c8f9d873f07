// Why the register refuses. Each fault has its number in the refusal table and the layer that finds it.
ghost use Rattle.std.specs.Prelude.{◌≡◌};
ghost use Rattle.rights.specs.declared.faults.RegisterFault.TheVariants.{Draft, Grant, KindTooLarge};
ghost use Rattle.rights.specs.Faults.{number, layer_of_row};

use model::records::GrantKey;
use table::TableFault;
use terms::UnknownKind;

#[derive(Clone, Copy, Debug, PartialEq, Eq)]
pub enum Layer {
    Table,
    Register,
}

#[derive(Clone, Copy, Debug, PartialEq, Eq)]
pub enum RegisterFault {
    AccountTooLarge,
    RightTooLarge,
    KindTooLarge,
    PolicyUnknown,
    CellsOutOfRange,
    Draft(TableFault<u16>),
    NoCellsLeft,
    NotOwner,
    NotEntitled,
    Grant(TableFault<GrantKey>),
    Circle,
    DraftFull,
    SerialsSpent,
    BufferTooShort,
}

impl From<TableFault<u16>> for RegisterFault {
    ghost from_gives = { λ f r. r ≡ Draft f };

    fn from(fault: TableFault<u16>) -> Self {
        Self::Draft(fault)
    }
}

impl From<TableFault<GrantKey>> for RegisterFault {
    ghost from_gives = { λ f r. r ≡ Grant f };

    fn from(fault: TableFault<GrantKey>) -> Self {
        Self::Grant(fault)
    }
}

impl From<UnknownKind> for RegisterFault {
    ghost from_gives = { λ f r. r ≡ KindTooLarge };

    fn from(_fault: UnknownKind) -> Self {
        Self::KindTooLarge
    }
}

impl RegisterFault {
    pub fn number(self) -> u8
        ensures { result ≡ number self }
    {
        match self {
            RegisterFault::AccountTooLarge => 1,
            RegisterFault::RightTooLarge => 2,
            RegisterFault::KindTooLarge => 3,
            RegisterFault::PolicyUnknown => 4,
            RegisterFault::CellsOutOfRange => 5,
            RegisterFault::Draft(TableFault::Absent(_)) => 6,
            RegisterFault::Draft(TableFault::Present(_)) => 7,
            RegisterFault::Draft(TableFault::Full) => 8,
            RegisterFault::NoCellsLeft => 9,
            RegisterFault::NotOwner => 10,
            RegisterFault::NotEntitled => 11,
            RegisterFault::Grant(TableFault::Present(_)) => 12,
            RegisterFault::Circle => 13,
            RegisterFault::DraftFull | RegisterFault::Grant(TableFault::Full) => 14,
            RegisterFault::SerialsSpent => 15,
            RegisterFault::Grant(TableFault::Absent(_)) => 16,
            RegisterFault::BufferTooShort => 17,
        }
    }

    pub fn layer(self) -> Layer
        ensures { result ≡ layer_of_row (number self) }
    {
        match self {
            RegisterFault::Grant(TableFault::Full) => Layer::Register,
            RegisterFault::Draft(_) | RegisterFault::Grant(_) => Layer::Table,
            _ => Layer::Register,
        }
    }
}
