// The settled list of a signed chart.
ghost use Rattle.std.specs.Prelude.{◌≡◌, ℕ, ◌<◌};
ghost use Rattle.rulings.specs.Ranking.{Ranking};
ghost use Rattle.charts.specs.Chains.{NoCircle};
ghost use Rattle.settlement.specs.Examples.{WorkedExamples};
ghost use Rattle.settlement.specs.Picked.{picked};
ghost use Rattle.settlement.specs.Picking.{settled};
ghost use Rattle.settlement.specs.Settled.{Settled, OneEach, Picks};

use crate::cases::Case;
use crate::overrides::find_overridden;
use crate::picks::Settlement;
use charts::SignedChart;
use rulings::Ruling;

// For each account but the owner the line that decides. On a chart without circles, under a known policy, the
// picks are a settled list, and where no account has two lines to another they are the only one. Costs what
// finding the overridden lines costs, and in each round a step for each line and each account; there is at
// most one round more than the longest chain has lines.
pub fn settle<C: SignedChart, R: Ruling>(
    chart: &C,
    owner: u16,
    ruling: &R,
    policy: u8,
) -> Settlement
    ensures value { (a : ℕ) → picked result a ≡ settled (C.Chart.lines chart.now) (C.signs chart.now) owner (R.ranking ruling.now) policy a }
    ensures settled { NoCircle (C.Chart.lines chart.now) → policy < (R.ranking ruling.now).known → Settled (C.Chart.lines chart.now) (C.signs chart.now) owner (R.ranking ruling.now) policy (picked result) }
    ensures only { NoCircle (C.Chart.lines chart.now) → OneEach (C.Chart.lines chart.now) → policy < (R.ranking ruling.now).known → (other : Picks) → Settled (C.Chart.lines chart.now) (C.signs chart.now) owner (R.ranking ruling.now) policy other → (a : ℕ) → other a ≡ picked result a }
    ensures examples { WorkedExamples }
{
    let case = Case {
        chart,
        owner,
        ruling,
        policy,
        flags: find_overridden(chart),
    };
    case.settle()
}
