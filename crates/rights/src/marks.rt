// What the marks of one right on one draft tell of an account. Each call costs at most a step for each mark, and
// `closes_circle` what `search` costs.
ghost use Rattle.std.specs.Prelude.{◌≡◌, ◌≤◌, ◌||◌, length, position, ◌==◌};
ghost use Rattle.std.specs.List.{list_any};
ghost use Rattle.charts.specs.Reaching.{above};
ghost use Rattle.model.specs.Delegation.{lines_of, passes_to, entitled, between};
ghost use Rattle.rights.specs.Gathering.{names};
ghost use Rattle.rights.specs.Lengths.{named_accounts};

use charts::{Accounts, Mark, Marks, search};
use terms::Kind;

// Whether some grant names the account.
pub(crate) fn is_named(marks: &[Mark], account: u16) -> bool
    ensures { result ≡ list_any (names account) marks.now }
{
    marks.iter().any(|mark| mark.to == account)
}

// How many accounts the grants name.
#[tactic(auto, using(crate::proofs::Counts::count_le))]
pub(crate) fn count_named(marks: &[Mark]) -> usize
    ensures { result ≡ named_accounts marks.now }
{
    let mut named = Accounts::none();
    // Of a closure that changes the set, as one in `filter` would, a proof knows too little to count by.
    let mut count = 0;
    for mark in marks {
        if named.insert(mark.to) {
            count += 1;
        }
    }
    count
}

// Whether the account is the owner, or some delegatable grant names it.
#[tactic(auto, using(crate::proofs::Firsts::found_any))]
pub(crate) fn is_entitled(marks: &[Mark], owner: u16, account: u16) -> bool
    ensures { result ≡ entitled owner marks.now account }
{
    account == owner || is_passed_to(marks, account)
}

// Whether some delegatable grant names the account.
fn is_passed_to(marks: &[Mark], account: u16) -> bool
    ensures { result ≡ list_any (passes_to account) marks.now }
{
    marks.iter().any(|mark| mark.to == account && mark.kind == Kind::Delegatable)
}

// The place of the first grant by one account to another.
pub(crate) fn place_of(marks: &[Mark], from: u16, to: u16) -> Option<usize>
    ensures { result ≡ position (between from to) marks.now }
{
    marks.iter().position(|m| m.from == from && m.to == to)
}

// Whether a grant by the caller to the account would close a circle.
pub(crate) fn closes_circle(marks: &[Mark], caller: u16, account: u16) -> bool
    requires { length marks.now ≤ 4096 }
    ensures { result ≡ (account == caller || above (lines_of marks.now) account caller) }
{
    account == caller || search(&Marks { marks }, account).contains(caller)
}
