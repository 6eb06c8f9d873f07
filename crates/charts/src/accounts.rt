// A set of accounts, one bit each in eight words. What speaks of two sets costs a step for each word, the rest
// one step.
ghost use Rattle.std.specs.Prelude.{◌≡◌, ℕ, true, false, not, ◌&&◌, ◌||◌, ◌<◌, Decides, ◌==◌, nat_lt};
ghost use Rattle.charts.specs.Members.{bit, member};

use terms::ACCOUNTS;

#[derive(Clone, Copy, Debug, PartialEq, Eq, Default)]
pub struct Accounts {
    words: [u64; 8],
}

impl Accounts {
    pub fn none() -> Accounts
        ensures { (a : ℕ) → member result a ≡ false }
    {
        Accounts::default()
    }

    pub fn contains(&self, account: u16) -> bool
        ensures { result ≡ member self.now account }
    {
        self.words
            .get(usize::from(account / 64))
            .is_some_and(|word| (word >> (account % 64)) & 1 == 1)
    }

    // Puts the account in, and tells whether it is new; a number that is no account is left out.
    pub fn insert(&mut self, account: u16) -> bool
        ensures value { result ≡ (nat_lt account 512 && not (member self.old account)) }
        ensures after { (b : ℕ) → member self.new b ≡ (member self.old b || (b == account && nat_lt b 512)) }
    {
        if account >= ACCOUNTS || self.contains(account) {
            return false;
        }
        self.words[usize::from(account / 64)] |= 1 << (account % 64);
        true
    }

    // Puts in all accounts of another set, and tells whether one is new.
    pub fn absorb(&mut self, other: &Accounts) -> bool
        ensures after { (b : ℕ) → member self.new b ≡ (member self.old b || member other.now b) }
        ensures new { result ≡ true → (b : ℕ) × (member self.old b ≡ false) × (member self.new b ≡ true) }
        ensures same { result ≡ false → (b : ℕ) → member self.new b ≡ member self.old b }
    {
        let before = *self;
        // By number: of words that are changed through `iter_mut` a proof knows how many there are, and no more.
        for (k, more) in other.words.iter().enumerate() {
            self.words[k] |= more;
        }
        *self != before
    }

    // Whether an account is in both sets.
    pub fn meets(&self, other: &Accounts) -> bool
        ensures { Decides result ((b : ℕ) × (member self.now b ≡ true) × (member other.now b ≡ true)) }
    {
        self.words
            .iter()
            .zip(&other.words)
            .any(|(word, more)| share_a_bit(*word, *more))
    }
}

fn share_a_bit(word: u64, more: u64) -> bool
    ensures { Decides result ((j : ℕ) × (j < 64) × (bit word j ≡ true) × (bit more j ≡ true)) }
{
    word & more != 0
}
