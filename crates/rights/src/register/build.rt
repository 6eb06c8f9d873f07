ghost use Rattle.std.specs.Prelude.{◌≡◌, min, length, take};
ghost use Rattle.rights.specs.Contents.{contents, lent_places, lent_cells};
ghost use Rattle.model.specs.State.{empty};

use crate::register::Register;
use model::records::{DraftRecord, GrantRecord};
use table::Table;
use terms::{CELLS, PLACES};

impl<'a> Register<'a> {
    // A register with no drafts over the first 256 places and the first 4,096 cells, whatever they held.
    pub fn build(places: &'a mut [DraftRecord], cells: &'a mut [GrantRecord]) -> Self
        ensures empty { contents result ≡ empty (min (length places.old) 256) (min (length cells.old) 4096) }
        ensures places { lent_places result ≡ take (min (length places.old) 256) places.old }
        ensures cells { lent_cells result ≡ take (min (length cells.old) 4096) cells.old }
    {
        let place_count = places.len().min(PLACES);
        let cell_count = cells.len().min(CELLS);
        Register {
            drafts: Table::new(&mut places[0..place_count]),
            grants: Table::new(&mut cells[0..cell_count]),
        }
    }
}
