// Rulings: how two grants to one account rank under a numbered policy. A ruling is known by its ranking
// alone, so whatever is proved under every lawful ranking holds of each ruling here and of any other.
#![tactic(auto)]

ghost use Rattle.std.specs.Prelude.{◌≡◌, nat_lt};
ghost use Rattle.rulings.specs.Ranking.{Ranking, Lawful};
ghost use Rattle.rulings.specs.House.{house};
ghost use Rattle.rulings.specs.HouseLaws.{house_lawful};
ghost use Rattle.rulings.specs.Seniority.{rank, seniority};
ghost use Rattle.rulings.specs.SeniorityLaws.{seniority_lawful};

use terms::Claim;

// A ruling, by its ranking, which is lawful. `POLICIES` is the number of policies that it knows, from 1
// to 16; it binds where `knows` is written with it.
pub trait Ruling {
    const POLICIES: u8;

    ghost ranking: { Self → Ranking };

    ghost laws: { (s : Self) → Lawful (ranking s) };

    fn knows(&self, policy: u8) -> bool
        ensures { result ≡ nat_lt policy (ranking self.now).known };

    // Whether the first claim ranks at least as high as the second; no under an unknown policy.
    fn ranks(&self, policy: u8, a: Claim, b: Claim) -> bool
        ensures { result ≡ (ranking self.now).ranks policy a b };
}

// The ruling of the planning service itself.
#[derive(Clone, Copy, Debug, PartialEq, Eq, Default)]
pub struct House;

impl Ruling for House {
    const POLICIES: u8 = 4;

    ghost ranking = { λ _. house };

    ghost laws = { λ _. house_lawful };

    fn knows(&self, policy: u8) -> bool {
        policy < Self::POLICIES
    }

    fn ranks(&self, policy: u8, a: Claim, b: Claim) -> bool {
        // Kinds are in order from the strictest.
        match policy {
            0 => true,
            1 => a.kind <= b.kind,
            2 => b.kind <= a.kind,
            3 => b.serial <= a.serial,
            _ => false,
        }
    }
}

// Ranks claims by the rank bytes that the host provides, one for each account.
#[derive(Clone, Copy, Debug, PartialEq, Eq)]
pub struct Seniority<'a> {
    pub ranks: &'a [u8],
}

impl Seniority<'_> {
    // The rank of a claim's grantor; past the end of the bytes it is 0.
    fn rank(&self, claim: Claim) -> u8
        ensures { result ≡ rank self.now.ranks.now claim }
    {
        self.ranks
            .get(usize::from(claim.grantor))
            .copied()
            .unwrap_or(0)
    }
}

impl Ruling for Seniority<'_> {
    const POLICIES: u8 = 2;

    ghost ranking = { λ s. seniority s.ranks.now };

    ghost laws = { λ s. seniority_lawful s.ranks.now };

    fn knows(&self, policy: u8) -> bool {
        policy < Self::POLICIES
    }

    fn ranks(&self, policy: u8, a: Claim, b: Claim) -> bool {
        match policy {
            0 => self.rank(b) <= self.rank(a),
            1 => self.rank(a) <= self.rank(b),
            _ => false,
        }
    }
}
