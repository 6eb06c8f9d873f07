// Charts made of others and of records. Each reading costs what one of the chart beneath costs, and a step.
ghost use Rattle.std.specs.Prelude.{◌≡◌, ℕ, ◌≤◌, map, length, take, Some, None, slice_index_or, slice_set};
ghost use Rattle.charts.specs.Views.{mark_line, mark_sign, no_sign, passing};

use crate::chart::{Chart, Line, Sign, SignedChart};
use terms::{CELLS, Kind};

// A record that is a line with its sign.
#[derive(Clone, Copy, Debug, PartialEq, Eq, Default)]
pub struct Mark {
    pub from: u16,
    pub to: u16,
    pub kind: Kind,
    pub serial: u16,
}

impl From<Mark> for Line {
    ghost from_gives = { λ m l. l ≡ record { from = m.from; to = m.to } };

    fn from(mark: Mark) -> Line {
        Line {
            from: mark.from,
            to: mark.to,
        }
    }
}

impl From<Mark> for Sign {
    ghost from_gives = { λ m s. s ≡ mark_sign m };

    fn from(mark: Mark) -> Sign {
        Sign {
            kind: mark.kind,
            serial: mark.serial,
        }
    }
}

// All lines of some records, of which only the first 4,096 count.
#[derive(Clone, Copy, Debug)]
pub struct Marks<'a> {
    pub marks: &'a [Mark],
}

impl Marks<'_> {
    fn counted(&self) -> &[Mark]
        ensures marks { result.now ≡ take 4096 self.now.marks.now }
        ensures bound { length result.now ≤ 4096 }
    {
        &self.marks[..CELLS.min(self.marks.len())]
    }
}

impl Chart for Marks<'_> {
    ghost lines = { λ s. map mark_line (take 4096 s.marks.now) };

    fn len(&self) -> usize {
        self.counted().len()
    }

    fn line(&self, at: usize) -> Option<Line> {
        self.counted().get(at).copied().map(Line::from)
    }
}

impl SignedChart for Marks<'_> {
    ghost signs = { λ s i. slice_index_or (map mark_sign (take 4096 s.marks.now)) i no_sign };

    fn sign(&self, at: usize) -> Sign {
        self.counted()
            .get(at)
            .copied()
            .map(Sign::from)
            .unwrap_or_default()
    }
}

// Only the delegatable lines of a chart.
#[derive(Clone, Copy)]
pub struct Passing<'a, C> {
    pub chart: &'a C,
}

impl<C: SignedChart> Chart for Passing<'_, C> {
    ghost lines = { λ s. passing (C.SignedChart.signs s.chart.now) (C.Chart.lines s.chart.now) };

    fn len(&self) -> usize {
        self.chart.len()
    }

    fn line(&self, at: usize) -> Option<Line> {
        if self.chart.sign(at).kind != Kind::Delegatable {
            return None;
        }
        self.chart.line(at)
    }
}

// All lines of a chart but the one at a place.
#[derive(Clone, Copy)]
pub struct Without<'a, C> {
    pub chart: &'a C,
    pub at: usize,
}

impl<C: Chart> Chart for Without<'_, C> {
    ghost lines = { λ s. slice_set (C.Chart.lines s.chart.now) s.at None };

    fn len(&self) -> usize {
        self.chart.len()
    }

    fn line(&self, at: usize) -> Option<Line> {
        if at == self.at {
            None
        } else {
            self.chart.line(at)
        }
    }
}

impl<C: SignedChart> SignedChart for Without<'_, C> {
    ghost signs = { λ s. C.SignedChart.signs s.chart.now };

    fn sign(&self, at: usize) -> Sign {
        self.chart.sign(at)
    }
}
