// The grants of one right on one draft, gathered from the cells in one pass, so that what follows costs by the
// draft's grants and not by the register's.
ghost use Rattle.std.specs.Prelude.{◌≡◌, ◌≤◌, length, count_by};
ghost use Rattle.model.specs.Grants.{is_on_draft, of_right};
ghost use Rattle.rights.specs.Contents.{contents};
ghost use Rattle.rights.specs.Gathering.{gathered};

use crate::register::Register;
use arrayvec::ArrayVec;
use charts::Mark;
use terms::DRAFT_CELLS;

// No draft has more grants, since none reserves more cells.
const MARKS: usize = DRAFT_CELLS as usize;

// The grants of the right, and how many of all rights are on the draft.
#[derive(Drop)]
pub(crate) struct Gathered {
    marks: ArrayVec<Mark, MARKS>,
    pub(crate) on_draft: usize,
}

impl Gathered {
    pub(crate) fn marks(&self) -> &[Mark]
        ensures is { result.now ≡ gathered self.now }
        ensures few { length result.now ≤ 4096 }
    {
        self.marks.as_slice()
    }
}

impl Register<'_> {
    // Costs a step for each grant, and the filling and moving of 8 KB.
    #[tactic(auto, using(table::proofs::Cells::used_within))]
    pub(crate) fn gather(&self, draft: u16, right: u8) -> Gathered
        ensures marks { gathered result ≡ of_right draft right (contents self.now).grants }
        ensures count { result.on_draft ≡ count_by (is_on_draft draft) (contents self.now).grants }
    {
        let mut marks = ArrayVec::new();
        let mut on_draft = 0;
        for grant in self
            .grants
            .used()
            .iter()
            .filter(|grant| grant.draft == draft)
        {
            on_draft += 1;
            if grant.right == right {
                marks.push(Mark::from(grant));
            }
        }
        Gathered { marks, on_draft }
    }
}
