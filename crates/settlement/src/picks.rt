// For each account the place of the line that is picked for it.
ghost use Rattle.std.specs.Prelude.{◌≡◌, ℕ, ◌&&◌, if◌then◌else◌, Some, None, nat_eq, nat_lt};
ghost use Rattle.settlement.specs.Picked.{picked};

use terms::ACCOUNTS;

#[derive(Clone, Copy, PartialEq, Eq, Debug)]
pub struct Settlement {
    places: [Option<u16>; 512],
}

impl Settlement {
    // Nobody has a line picked.
    pub(crate) fn none() -> Settlement
        ensures { (a : ℕ) → picked result a ≡ None }
    {
        Settlement {
            places: [None; 512],
        }
    }

    // The place of the line picked for the account.
    pub fn pick(&self, account: u16) -> Option<u16>
        ensures { result ≡ picked self.now account }
    {
        self.places.get(usize::from(account)).copied().flatten()
    }

    pub(crate) fn set(&mut self, account: u16, at: u16)
        ensures { (a : ℕ) → picked self.new a ≡ (if nat_eq a account && nat_lt a 512 then Some at else picked self.old a) }
    {
        if account < ACCOUNTS {
            self.places[usize::from(account)] = Some(at);
        }
    }
}
