// A chart is a list of at most 4,096 lines, each present or absent: a directed graph by its edges. A line with
// an end above 511 counts for nothing. Reading a chart alters nothing. Whatever is proved of charts holds of each
// type that is one.
ghost use Rattle.std.specs.Prelude.{◌≡◌, ℕ, ◌≤◌, List, length, None, Option, slice_index_or};
ghost use Rattle.std.specs.Iterator.{YieldsFirst, item_count};
ghost use Rattle.std.specs.Iterator.Runs.{YieldsInOrder};
ghost use Rattle.charts.specs.declared.chart.Line.{Line};
ghost use Rattle.charts.specs.declared.chart.Sign.{Sign};
ghost use Rattle.charts.specs.Reaching.{between_accounts};
ghost use Rattle.charts.specs.Walks.{lines_left};

use std::ops::Range;
use terms::{ACCOUNTS, Kind};

#[derive(Clone, Copy, Debug, PartialEq, Eq)]
pub struct Line {
    pub from: u16,
    pub to: u16,
}

impl Line {
    // Whether it leads between accounts.
    pub fn joins_accounts(&self) -> bool
        ensures { result ≡ between_accounts self.now }
    {
        self.from < ACCOUNTS && self.to < ACCOUNTS
    }
}

// What a line says beside where it leads. The default one stands where there is no line.
#[derive(Clone, Copy, Debug, PartialEq, Eq, Default)]
pub struct Sign {
    pub kind: Kind,
    pub serial: u16,
}

pub trait Chart {
    ghost lines: { Self → List (Option Line) };

    fn len(&self) -> usize
        ensures value { result ≡ length (lines self.now) }
        ensures bound { result ≤ 4096 };

    // The line at a place; none is there past the end.
    fn line(&self, at: usize) -> Option<Line>
        ensures { result ≡ slice_index_or (lines self.now) at None };

    // The lines in their order, None for one that is absent.
    final fn iter(&self) -> Lines<'_, Self>
        ensures rest { lines_left lines result ≡ lines self.now }
        ensures bound { length (lines_left lines result) ≤ 4096 }
        ensures runs { YieldsInOrder (YieldsFirst (lines_left lines)) (lines_left lines) }
    {
        Lines {
            chart: self,
            places: 0..self.len(),
        }
    }
}

// The lines of a chart that are still to come.
#[derive(Drop)]
pub struct Lines<'a, C> {
    chart: &'a C,
    places: Range<usize>,
}

impl<C: Chart> Iterator for Lines<'_, C> {
    type Item = Option<Line>;

    ghost next_gives = { YieldsFirst (lines_left C.lines) };

    ghost remaining = { item_count (lines_left C.lines) };

    fn next(&mut self) -> Option<Option<Line>> {
        let at = self.places.next()?;
        Some(self.chart.line(at))
    }
}

// A chart whose lines have signs. The sign at a place where no line is present says nothing.
pub trait SignedChart: Chart {
    ghost signs: { Self → ℕ → Sign };

    fn sign(&self, at: usize) -> Sign
        ensures { result ≡ signs self.now at };
}
