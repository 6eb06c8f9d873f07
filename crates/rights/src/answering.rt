// What the picked grants decide for an account. Each call costs a step.
ghost use Rattle.std.specs.Prelude.{◌≡◌};
ghost use Rattle.settlement.specs.Picked.{picked};
ghost use Rattle.model.specs.Sheets.{by_kind, by_pick, by_picks};

use charts::Mark;
use model::Decision;
use settlement::Settlement;
use terms::Kind;

// The answer for an account: the owner is permitted, by himself, another as the grant picked for it says.
pub(crate) fn answer_for(
    owner: u16,
    marks: &[Mark],
    picks: &Settlement,
    account: u16,
) -> (Decision, Option<u16>)
    ensures { result ≡ by_picks owner marks.now (picked picks.now) account }
{
    if account == owner {
        return (Decision::Permitted, Some(account));
    }
    decide(marks, picks.pick(account))
}

// What the picked grant decides, and who made it.
pub(crate) fn decide(marks: &[Mark], pick: Option<u16>) -> (Decision, Option<u16>)
    ensures { result ≡ by_pick marks.now pick }
{
    let Some(at) = pick else {
        return (Decision::Undecided, None);
    };
    // No place past the end is ever picked.
    let Some(mark) = marks.get(usize::from(at)) else {
        return (Decision::Denied, Some(0));
    };
    decided_by(mark.kind, mark.from)
}

fn decided_by(kind: Kind, grantor: u16) -> (Decision, Option<u16>)
    ensures { result ≡ by_kind kind grantor }
{
    match kind {
        Kind::Denying => (Decision::Denied, Some(grantor)),
        Kind::Plain | Kind::Delegatable => (Decision::Permitted, Some(grantor)),
    }
}
