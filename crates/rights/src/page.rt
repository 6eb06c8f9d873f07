// A sheet, put together line by line in a page that has room for the longest.
ghost use Rattle.std.specs.Prelude.{◌≡◌, ◌+◌, ◌<◌, ◌≤◌, [], ◌∷◌, ◌++◌, length, decimal};
ghost use Rattle.settlement.specs.Picked.{picked};
ghost use Rattle.model.specs.Sheets.{by_picks, entry, joined_below};
ghost use Rattle.text.specs.Text.{Puts};

use crate::answering::answer_for;
use arrayvec::CapacityError;
use charts::Mark;
use model::Decision;
use settlement::Settlement;
use terms::ACCOUNTS;
use text::Text;

// A line for each account, of at most 20 bytes: three digits for the account, and as many as a u16 can have for the
// grantor, since nothing here says that it is an account.
const PAGE: usize = 10240;

pub(crate) type Page = Text<PAGE>;

// Puts the lines of all accounts into an empty page. Costs a few steps for each account.
#[tactic(auto, using(crate::proofs::Pages::joining))]
pub(crate) fn put_lines(page: &mut Page, owner: u16, marks: &[Mark], picks: &Settlement)
    requires { page.old ≡ [] }
    ensures { page.new ≡ joined_below 512 (λ a. entry a (by_picks owner marks.now (picked picks.now) a)) }
{
    for account in 0..ACCOUNTS {
        let answer = answer_for(owner, marks, picks, account);
        put_entry(page, account, answer).unwrap();
    }
}

// Puts the account's line, where it has one.
fn put_entry(
    page: &mut Page,
    account: u16,
    answer: (Decision, Option<u16>),
) -> Result<(), CapacityError>
    requires { account < 512 }
    ensures put { Puts PAGE result page.old (entry account answer) page.new }
    ensures short { length (entry account answer) ≤ 20 }
{
    match answer {
        (Decision::Permitted, Some(grantor)) => put_line(page, account, b" permitted ", grantor),
        (Decision::Denied, Some(grantor)) => put_line(page, account, b" denied ", grantor),
        (Decision::Permitted | Decision::Denied, None) | (Decision::Undecided, _) => Ok(()),
    }
}

#[tactic(auto, using(text::proofs::Lengths::lengths))]
fn put_line(page: &mut Page, account: u16, word: &[u8], grantor: u16) -> Result<(), CapacityError>
    requires in_range { account < 512 }
    requires short_word { length word.now ≤ 11 }
    ensures put { Puts PAGE result page.old (decimal account ++ (word.now ++ (decimal grantor ++ (10 ∷ [])))) page.new }
    ensures short { length (decimal account ++ (word.now ++ (decimal grantor ++ (10 ∷ [])))) ≤ 20 }
{
    page.put_number(account)?;
    page.put(word)?;
    page.put_number(grantor)?;
    page.put(b"\n")
}
