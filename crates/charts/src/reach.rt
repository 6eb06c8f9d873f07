// Reachability: who is reached from an account. It is written once, for every chart.
ghost use Rattle.std.specs.Prelude.{◌≡◌, ℕ, ◌<◌, length, Decides};
ghost use Rattle.charts.specs.Chains.{Chain};
ghost use Rattle.charts.specs.Members.{member};
ghost use Rattle.charts.specs.Passes.{Followed, Passed, reached_from, Is};

use crate::accounts::Accounts;
use crate::chart::{Chart, Line};
use terms::ACCOUNTS;

// The accounts that a chain of lines leads to from the start: exactly those. Passes over the lines go on
// as long as they find an account more, so it makes at most one pass more than the longest of the shortest
// chains from the start has lines; two passes do where each line stands behind a shortest chain to its start.
pub fn search<C: Chart>(chart: &C, start: u16) -> Accounts
    ensures { (b : ℕ) → Decides (member result b) (Chain (C.lines chart.now) start b) }
{
    let mut reached = Accounts::none();
    if start >= ACCOUNTS {
        return reached;
    }
    while pass(chart, start, &mut reached) {}
    reached
}

// Follows every line once; tells whether an account is new.
fn pass<C: Chart>(chart: &C, start: u16, reached: &mut Accounts) -> bool
    requires { start < 512 }
    ensures { Passed (reached_from start) (Is start) (C.lines chart.now) (length (C.lines chart.now)) reached.old reached.new result }
{
    let mut grew = false;
    for line in chart.iter() {
        grew |= follow(line, start, reached);
    }
    grew
}

// Puts in the account that the line leads to, where it comes from the start or from an account in the set;
// tells whether it is new.
fn follow(line: Option<Line>, start: u16, reached: &mut Accounts) -> bool
    requires { start < 512 }
    ensures { Followed (reached_from start) (Is start) line reached.old reached.new result }
{
    let Some(line) = line else {
        return false;
    };
    if line.from != start && !reached.contains(line.from) {
        return false;
    }
    reached.insert(line.to)
}
