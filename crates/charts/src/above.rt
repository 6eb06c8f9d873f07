// Who is above whom, for all accounts at once.
ghost use Rattle.std.specs.Prelude.{◌≡◌, ℕ, false, ◌||◌, length, Decides};
ghost use Rattle.charts.specs.Chains.{Chain, Leads};
ghost use Rattle.charts.specs.Members.{member};
ghost use Rattle.charts.specs.Passes.{Followed, Passed};
ghost use Rattle.charts.specs.Sets.{over, joins, Any};

use crate::accounts::Accounts;
use crate::chart::{Chart, Line};

// For each account a set of accounts from which lines lead to it: 32 KB.
#[derive(Clone, Copy, Debug)]
pub struct Sources {
    sets: [Accounts; 512],
}

impl Sources {
    fn none() -> Sources
        ensures { (a b : ℕ) → over result a b ≡ false }
    {
        Sources {
            sets: [Accounts::none(); 512],
        }
    }

    // The accounts in the set of this one.
    pub fn of(&self, account: u16) -> Accounts
        ensures { (a : ℕ) → member result a ≡ over self.now a account }
    {
        self.sets
            .get(usize::from(account))
            .copied()
            .unwrap_or_default()
    }

    // Puts where the line leads from into the set of where it leads to.
    fn put(&mut self, line: Option<Line>)
        ensures { (a b : ℕ) → over self.new a b ≡ (over self.old a b || joins line a b) }
    {
        let Some(line) = line.filter(Line::joins_accounts) else {
            return;
        };
        self.sets[usize::from(line.to)].insert(line.from);
    }

    // Puts where the line leads from, and all above that, above where it leads to; tells whether one is new.
    fn follow(&mut self, line: Option<Line>) -> bool
        ensures { Followed over Any line self.old self.new result }
    {
        let Some(line) = line.filter(Line::joins_accounts) else {
            return false;
        };
        let higher = self.sets[usize::from(line.from)];
        let set = &mut self.sets[usize::from(line.to)];
        let new = set.insert(line.from);
        let more = set.absorb(&higher);
        new | more
    }
}

// For every account the accounts from which a chain leads to it. Costs eight words for each line in each
// pass; there is at most one pass more than the longest of the shortest chains has lines, and two do where
// each line stands behind those that lead to its start.
pub fn all_above<C: Chart>(chart: &C) -> Sources
    ensures { (a b : ℕ) → Decides (over result a b) (Chain (C.lines chart.now) a b) }
{
    let mut above = Sources::none();
    while climb(chart, &mut above) {}
    above
}

// Follows every line once; tells whether an account is new above another. `pass` of a search is like it for one
// account: a trait for both would have three ghost members for this loop.
fn climb<C: Chart>(chart: &C, above: &mut Sources) -> bool
    ensures { Passed over Any (C.lines chart.now) (length (C.lines chart.now)) above.old above.new result }
{
    let mut grew = false;
    for line in chart.iter() {
        grew |= above.follow(line);
    }
    grew
}

// For every account the accounts from which one line leads to it. Costs a step for each line.
pub fn direct_sources<C: Chart>(chart: &C) -> Sources
    ensures { (a b : ℕ) → Decides (over result a b) ((at : ℕ) × Leads (C.lines chart.now) at a b) }
{
    let mut sources = Sources::none();
    for line in chart.iter() {
        sources.put(line);
    }
    sources
}
