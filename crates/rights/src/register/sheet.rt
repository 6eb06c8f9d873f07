ghost use Rattle.std.specs.Prelude.{◌≡◌, [], OnErr};
ghost use Rattle.model.specs.Calls.Call.{listing};
ghost use Rattle.model.specs.Calls.Reply.{listed};
ghost use Rattle.model.specs.Grants.{of_right};
ghost use Rattle.model.specs.Meaning.{reply};
ghost use Rattle.model.specs.Sheets.{sheet};
ghost use Rattle.rights.specs.Contents.{contents};
ghost use Rattle.rights.specs.Faults.{replied, TellsDraft};

use crate::faults::RegisterFault;
use crate::page::{Page, put_lines};
use crate::register::Register;
use crate::register::checks::refuse_if;
use charts::Marks;
use charts::chart::Chart;
use model::DraftRecord;
use rulings::Ruling;
use settlement::settle;
use text::Text;

impl Register<'_> {
    // Writes the sheet of a right on a draft into the buffer and tells its length: a line for each account that the
    // settled list permits or denies, with the account whose grant decides. Costs a pass over the drafts, one over the
    // grants, a settlement, and a few steps for each account.
    pub fn sheet<R: Ruling>(
        &self,
        ruling: &R,
        draft: u16,
        right: u8,
        buffer: &mut [u8],
    ) -> Result<usize, RegisterFault>
        ensures told { replied (λ n. listed n buffer.new) result ≡ reply (R.ranking ruling.now) (contents self.now) (listing draft right buffer.old) }
        ensures same { OnErr result (buffer.new ≡ buffer.old) }
        ensures about { TellsDraft draft result }
    {
        let found = self.may_ask(ruling, draft, right)?;
        let mut page = Text::new();
        self.put_sheet(ruling, draft, right, &found, &mut page);
        let lines = page.as_bytes();
        refuse_if(buffer.len() < lines.len(), RegisterFault::BufferTooShort)?;
        buffer[..lines.len()].copy_from_slice(lines);
        Ok(lines.len())
    }

    // Puts the sheet of an open draft into an empty page.
    fn put_sheet<R: Ruling>(
        &self,
        ruling: &R,
        draft: u16,
        right: u8,
        found: &DraftRecord,
        page: &mut Page,
    )
        requires { page.old ≡ [] }
        ensures { page.new ≡ sheet (R.ranking ruling.now) found.now (of_right draft right (contents self.now).grants) }
    {
        let gathered = self.gather(draft, right);
        let marks = gathered.marks();
        let picks = settle(&Marks { marks }, found.owner, ruling, found.policy);
        put_lines(page, found.owner, marks, &picks);
    }
}
