// Grants, requests and sheets on draft 7, which account 1 owns.
use model::{Decision, DraftRecord, GrantRecord};
use rights::{Call, Outcome, Register, RegisterFault};
use rulings::{House, Seniority};
use std::process::Abort;
use std::test::Fail;

fn tells(rt: &impl Abort, told: Result<u16, RegisterFault>, count: u16) -> Result<(), Fail> {
    match told {
        Ok(number) => {
            assert_eq!(rt; number, count);
            Ok(())
        },
        Err(fault) => Err(Fail::new(format_args!("refused {}", fault.number()))),
    }
}

fn refuses<T: Drop>(
    rt: &impl Abort,
    told: Result<T, RegisterFault>,
    number: u8,
) -> Result<(), Fail> {
    match told {
        Ok(_) => Err(Fail::new("obeyed")),
        Err(fault) => {
            assert_eq!(rt; fault.number(), number);
            Ok(())
        },
    }
}

fn opens(rt: &impl Abort, register: &mut Register, policy: u8, cells: u16) {
    assert!(rt; register.open(&House, 7, 1, policy, cells).is_ok());
}

// Two grants to account 4: that of 2 permits, that of 3 denies.
fn grants_rivals(rt: &impl Abort, register: &mut Register) -> Result<(), Fail> {
    tells(rt, register.grant(7, 0, 1, 2, 2), 1)?;
    tells(rt, register.grant(7, 0, 1, 3, 2), 2)?;
    tells(rt, register.grant(7, 0, 2, 4, 1), 3)?;
    tells(rt, register.grant(7, 0, 3, 4, 0), 4)
}

// The draft reserves one cell of the eight.
#[test]
fn a_withdrawn_grant_gives_its_cell_back(rt: HostRuntime) -> Result<(), Fail> {
    let mut places = [DraftRecord::default(); 1];
    let mut cells = [GrantRecord::default(); 8];
    let mut register = Register::build(&mut places, &mut cells);
    opens(&rt, &mut register, 0, 1);
    tells(&rt, register.grant(7, 0, 1, 2, 2), 1)?;
    refuses(&rt, register.grant(7, 0, 1, 3, 1), 14)?;
    tells(&rt, register.withdraw(7, 0, 1, 2), 1)?;
    tells(&rt, register.grant(7, 0, 1, 3, 1), 2)
}

// Account 511, right 7 and 1,024 cells pass; 512, 8 and 1,025 do not.
#[test]
fn the_greatest_numbers_pass(rt: HostRuntime) -> Result<(), Fail> {
    let mut places = [DraftRecord::default(); 1];
    let mut cells = [GrantRecord::default(); 1024];
    let mut register = Register::build(&mut places, &mut cells);
    refuses(&rt, register.open(&House, 7, 512, 0, 1024), 1)?;
    refuses(&rt, register.open(&House, 7, 511, 0, 1025), 5)?;
    assert!(rt; register.open(&House, 7, 511, 0, 1024).is_ok());
    refuses(&rt, register.grant(7, 7, 511, 512, 1), 1)?;
    refuses(&rt, register.grant(7, 8, 511, 510, 1), 2)?;
    tells(&rt, register.grant(7, 7, 511, 510, 1), 1)?;
    refuses(&rt, register.request(&House, 7, 7, 512), 1)?;
    refuses(&rt, register.request(&House, 7, 8, 511), 2)?;
    assert!(rt; register.request(&House, 7, 7, 511).is_ok());
    Ok(())
}

// One byte short the sheet is refused and the buffer stays; what lies behind the sheet stays too.
#[test]
fn a_sheet_wants_its_length(rt: HostRuntime) -> Result<(), Fail> {
    let mut places = [DraftRecord::default(); 1];
    let mut cells = [GrantRecord::default(); 8];
    let mut register = Register::build(&mut places, &mut cells);
    opens(&rt, &mut register, 1, 8);
    grants_rivals(&rt, &mut register)?;
    let mut short = [b'.'; 52];
    refuses(&rt, register.sheet(&House, 7, 0, &mut short), 17)?;
    assert_eq!(rt; &short, &[b'.'; 52]);
    let mut exact = [b'.'; 53];
    assert!(rt; matches!(register.sheet(&House, 7, 0, &mut exact), Ok(53)));
    assert_eq!(rt;
        &exact,
        b"1 permitted 1\n2 permitted 1\n3 permitted 1\n4 denied 3\n"
    );
    let mut long = [b'.'; 55];
    assert!(rt; matches!(register.sheet(&House, 7, 0, &mut long), Ok(53)));
    assert_eq!(rt;
        &long,
        b"1 permitted 1\n2 permitted 1\n3 permitted 1\n4 denied 3\n.."
    );
    assert!(rt; matches!(register.length(7, 0), Ok(72)));
    Ok(())
}

// A serial is never given again, and the last one is 65,535.
#[test]
fn the_serials_end(rt: HostRuntime) -> Result<(), Fail> {
    let mut places = [DraftRecord::default(); 1];
    let mut cells = [GrantRecord::default(); 1];
    let mut register = Register::build(&mut places, &mut cells);
    opens(&rt, &mut register, 0, 1);
    for serial in 1..65_535 {
        tells(&rt, register.grant(7, 0, 1, 2, 1), serial)?;
        tells(&rt, register.withdraw(7, 0, 1, 2), 1)?;
    }
    tells(&rt, register.grant(7, 0, 1, 2, 1), 65_535)?;
    tells(&rt, register.withdraw(7, 0, 1, 2), 1)?;
    refuses(&rt, register.grant(7, 0, 1, 2, 1), 15)
}

// The same grants under the same policy number, by one ruling and by another.
#[test]
fn the_ruling_in_hand_decides(rt: HostRuntime) -> Result<(), Fail> {
    let mut places = [DraftRecord::default(); 1];
    let mut cells = [GrantRecord::default(); 8];
    let mut register = Register::build(&mut places, &mut cells);
    opens(&rt, &mut register, 0, 8);
    grants_rivals(&rt, &mut register)?;
    let request = Call::Request {
        draft: 7,
        right: 0,
        account: 4,
    };
    let told = register.obey(&House, request);
    assert!(rt; matches!(told, Ok(Outcome::Decided(Decision::Permitted, Some(2)))));
    let third = Seniority {
        ranks: &[0, 0, 7, 9],
    };
    let told = register.obey(&third, request);
    assert!(rt; matches!(told, Ok(Outcome::Decided(Decision::Denied, Some(3)))));
    assert!(rt; register.policy(&House, 7, 1, 2).is_ok());
    refuses(&rt, register.obey(&third, request), 4)
}
