// A chart that is being settled: its rounds, and its lines as candidates for their accounts.
ghost use Rattle.std.specs.Prelude.{◌≡◌, ℕ, ◌<◌, true, false, None, if◌then◌else◌, ◌==◌, slice_index_or};
ghost use Rattle.std.specs.Option.{option_map_or};
ghost use Rattle.settlement.specs.Picked.{picked};
ghost use Rattle.settlement.specs.Picking.{may_pass, eligible, better, prefer, repicked, settled, Candidate, FlagsOverridden};
ghost use Rattle.settlement.specs.Settled.{claim_at};

use crate::picks::Settlement;
use charts::{Chart, Line, SignedChart};
use rulings::Ruling;
use terms::{CELLS, Claim, Kind};

// What is being settled, with a flag for each line between accounts: whether it is overridden. The flags are an array,
// and not a vector that grows, since each is read by the place of its line.
#[derive(Drop)]
pub(crate) struct Case<'a, C: Chart, R> {
    pub(crate) chart: &'a C,
    pub(crate) owner: u16,
    pub(crate) ruling: &'a R,
    pub(crate) policy: u8,
    pub(crate) flags: [bool; CELLS],
    ghost flagged: { FlagsOverridden (C.lines chart.now) flags },
}

impl<C: SignedChart, R: Ruling> Case<'_, C, R> {
    // The picks of one round after another, from none, until a round changes nothing. The rounds are counted, since on a
    // chart with circles they may change the picks for ever.
    pub(crate) fn settle(&self) -> Settlement
        ensures { (a : ℕ) → picked result a ≡ settled (C.Chart.lines self.now.chart.now) (C.signs self.now.chart.now) self.now.owner (R.ranking self.now.ruling.now) self.now.policy a }
    {
        let mut picks = Settlement::none();
        for _n in 0..=self.chart.len() {
            let next = self.round(&picks);
            if next == picks {
                return picks;
            }
            picks = next;
        }
        picks
    }

    // The picks that follow from what these let others pass on. Costs a step for each line.
    fn round(&self, picks: &Settlement) -> Settlement
        ensures { (a : ℕ) → picked result a ≡ repicked (C.Chart.lines self.now.chart.now) (C.signs self.now.chart.now) self.now.owner (R.ranking self.now.ruling.now) self.now.policy (picked picks.now) a }
    {
        let mut next = Settlement::none();
        for (at, line) in self.chart.iter().enumerate() {
            self.consider(picks, at, line, &mut next);
        }
        next
    }

    // Lets the line at a place stand for its account, where it is eligible by these picks: it takes the place of
    // one that it is better than.
    #[tactic(auto, using(crate::proofs::Bests::prefer_told))]
    fn consider(&self, picks: &Settlement, at: usize, line: Option<Line>, next: &mut Settlement)
        requires place { at < 4096 }
        requires line { line ≡ slice_index_or (C.Chart.lines self.now.chart.now) at None }
        ensures { let lines = C.Chart.lines self.now.chart.now in
            let signs = C.signs self.now.chart.now in
            let owner = self.now.owner in
            (a : ℕ) → picked next.new a
            ≡ (if a == owner then picked next.old a
            else if eligible lines signs owner (picked picks.now) a (slice_index_or lines at None)
            then prefer (better lines signs (R.ranking self.now.ruling.now) self.now.policy) at (picked next.old a)
            else picked next.old a) }
    {
        if let Some(account) = self.candidate(picks, at, line)
            && self.replaces(at, next.pick(account))
        {
            next.set(account, at as u16);
        }
    }

    // The account that the line at a place may be picked for; the owner has none.
    fn candidate(&self, picks: &Settlement, at: usize, line: Option<Line>) -> Option<u16>
        requires { at < 4096 }
        ensures { Candidate (C.Chart.lines self.now.chart.now) (C.signs self.now.chart.now) self.now.owner (picked picks.now) (slice_index_or self.now.flags at false) line result }
    {
        let line = line?;
        let passes = line.from == self.owner || self.may_pass(picks.pick(line.from));
        (passes && line.to != self.owner && line.joins_accounts() && !self.flags[at]).then_some(
            line.to,
        )
    }

    // Whether the account with this pick may pass the right on.
    fn may_pass(&self, pick: Option<u16>) -> bool
        ensures { result ≡ may_pass (C.signs self.now.chart.now) pick }
    {
        pick.is_some_and(|at| self.chart.sign(usize::from(at)).kind == Kind::Delegatable)
    }

    // Whether the line at the place is to be picked rather than what is held.
    fn replaces(&self, at: usize, held: Option<u16>) -> bool
        ensures { result ≡ option_map_or (better (C.Chart.lines self.now.chart.now) (C.signs self.now.chart.now) (R.ranking self.now.ruling.now) self.now.policy at) held true }
    {
        let Some(held) = held else {
            return true;
        };
        let new = self.claim(at);
        let old = self.claim(usize::from(held));
        self.ruling.ranks(self.policy, new, old)
            && (!self.ruling.ranks(self.policy, old, new) || new.grantor < old.grantor)
    }

    fn claim(&self, at: usize) -> Claim
        ensures { result ≡ claim_at (C.Chart.lines self.now.chart.now) (C.signs self.now.chart.now) at }
    {
        let sign = self.chart.sign(at);
        Claim {
            kind: sign.kind,
            grantor: self.chart.line(at).map_or(0, |line| line.from),
            serial: sign.serial,
        }
    }
}
