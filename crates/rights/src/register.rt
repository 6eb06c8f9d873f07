// The register: a table of open drafts and one of standing grants, over memory that the host lends.
//
// Each call but `length`, whose answer has free play, replies what `Meaning` says of it and leaves the contents that
// `Meaning` says; a refused one leaves everything as it was. What a register holds is always what some history of calls
// leaves on an empty one, so that whatever holds after every history holds of every register. That the reservations fit
// and that no draft is open twice follow from it, and are said for themselves too.
ghost use Rattle.std.specs.Prelude.{◌≤◌};
ghost use Rattle.table.specs.Used.{used, room};
ghost use Rattle.model.specs.History.{Reached};
ghost use Rattle.model.specs.State.{reserved, state, Once};

use model::records::{DraftRecord, GrantRecord};
use table::Table;

mod build;
mod checks;
mod close;
mod gathered;
mod grant;
mod length;
mod open;
mod policy;
mod request;
mod sheet;
mod withdraw;

#[derive(Drop)]
pub struct Register<'a> {
    drafts: Table<'a, DraftRecord>,
    grants: Table<'a, GrantRecord>,
    ghost places_few: { room drafts ≤ 256 },
    ghost cells_few: { room grants ≤ 4096 },
    ghost reservations_fit: { reserved (used drafts) ≤ room grants },
    ghost drafts_once: { Once (used drafts) },
    ghost reached: { ∥ Reached (state (room drafts) (room grants) (used drafts) (used grants)) ∥₁ },
}
