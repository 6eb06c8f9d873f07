// Which lines of a chart are overridden: found once for a settlement.
ghost use Rattle.settlement.specs.Picking.{Flagged, FlagsOverridden};

use charts::{Chart, Line, Sources, all_above, direct_sources};
use terms::CELLS;

// A flag for each line between accounts. Costs what `all_above` costs, and eight words for each line.
pub(crate) fn find_overridden<C: Chart>(chart: &C) -> [bool; CELLS]
    ensures { FlagsOverridden (C.lines chart.now) result }
{
    let above = all_above(chart);
    let direct = direct_sources(chart);
    let mut flags = [false; CELLS];
    for (at, line) in chart.iter().enumerate() {
        flags[at] = flag(&above, &direct, line);
    }
    flags
}

// Whether an account above the one that the line comes from has a line to where it leads.
fn flag(above: &Sources, direct: &Sources, line: Option<Line>) -> bool
    ensures { Flagged above.now direct.now line result }
{
    line.is_some_and(|line| direct.of(line.to).meets(&above.of(line.from)))
}
