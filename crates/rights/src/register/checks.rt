// The tests that several calls make of what they are told.
ghost use Rattle.std.specs.Prelude.{◌≡◌, ◌||◌, if◌then◌else◌, Ok, Err, nat_eq, nat_le, nat_lt};

use crate::faults::RegisterFault;
use model::GrantKey;
use rulings::Ruling;
use terms::{ACCOUNTS, DRAFT_CELLS, RIGHTS};

pub(crate) fn refuse_if(case: bool, fault: RegisterFault) -> Result<(), RegisterFault>
    ensures { result ≡ (if case then Err fault else Ok tt) }
{
    if case { Err(fault) } else { Ok(()) }
}

pub(crate) fn account_in_range(account: u16) -> Result<(), RegisterFault>
    ensures { result ≡ (if nat_lt 511 account then Err RegisterFault.AccountTooLarge else Ok tt) }
{
    refuse_if(account >= ACCOUNTS, RegisterFault::AccountTooLarge)
}

pub(crate) fn policy_known<R: Ruling>(ruling: &R, policy: u8) -> Result<(), RegisterFault>
    ensures { result ≡ (if nat_le (R.ranking ruling.now).known policy then Err RegisterFault.PolicyUnknown else Ok tt) }
{
    refuse_if(!ruling.knows(policy), RegisterFault::PolicyUnknown)
}

pub(crate) fn cells_in_range(cells: u16) -> Result<(), RegisterFault>
    ensures { result ≡ (if nat_eq cells 0 || nat_lt 1024 cells then Err RegisterFault.CellsOutOfRange else Ok tt) }
{
    refuse_if(
        cells == 0 || cells > DRAFT_CELLS,
        RegisterFault::CellsOutOfRange,
    )
}

pub(crate) fn right_in_range(right: u8) -> Result<(), RegisterFault>
    ensures { result ≡ (if nat_lt 7 right then Err RegisterFault.RightTooLarge else Ok tt) }
{
    refuse_if(right >= RIGHTS, RegisterFault::RightTooLarge)
}

// The grantor and the account first, as the refusal table has them.
pub(crate) fn key_in_range(key: GrantKey) -> Result<(), RegisterFault>
    ensures { result ≡ (if nat_lt 511 key.grantor || nat_lt 511 key.account then Err RegisterFault.AccountTooLarge
        else if nat_lt 7 key.right then Err RegisterFault.RightTooLarge else Ok tt) }
{
    account_in_range(key.grantor)?;
    account_in_range(key.account)?;
    right_in_range(key.right)
}
