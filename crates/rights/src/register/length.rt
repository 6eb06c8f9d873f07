ghost use Rattle.std.specs.Prelude.{◌≡◌};
ghost use Rattle.model.specs.Refusals.{length_table, topmost};
ghost use Rattle.rights.specs.Contents.{contents};
ghost use Rattle.rights.specs.Faults.{refused_by, TellsDraft};
ghost use Rattle.rights.specs.Lengths.{LongEnough, ShortEnough};

use crate::faults::RegisterFault;
use crate::marks::count_named;
use crate::register::Register;
use crate::register::checks::right_in_range;
use table::TableFault;

// The longest line of a sheet: two accounts of three digits, and ` permitted ` between them.
const LINE: usize = 18;

impl Register<'_> {
    // A length that no sheet of the right on the draft exceeds, whatever the ruling: a longest line for each account
    // that a grant names, and one for the owner. Costs a pass over the drafts and one over the grants.
    #[tactic(auto, using(crate::proofs::Counts::count_le))]
    pub fn length(&self, draft: u16, right: u8) -> Result<usize, RegisterFault>
        ensures refused { refused_by result ≡ topmost (length_table (contents self.now) draft right) }
        ensures enough { LongEnough (contents self.now) draft right result }
        ensures few { ShortEnough (contents self.now) draft right result }
        ensures about { TellsDraft draft result }
    {
        right_in_range(right)?;
        let Some(_) = self.drafts.find(draft) else {
            return Err(RegisterFault::from(TableFault::Absent(draft)));
        };
        let gathered = self.gather(draft, right);
        Ok(LINE * count_named(gathered.marks()) + LINE)
    }
}
