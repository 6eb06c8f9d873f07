// A history on a register, with a sheet in it.
use model::{DraftRecord, GrantRecord};
use replay::{Made, Replied, Step, replay};
use rights::{Call, Register};
use rulings::House;
use std::test::Fail;

// Each call is made on what the one before it left, and a sheet has a buffer of its own, 0 behind it.
#[test]
fn a_history_is_replayed(rt: HostRuntime) -> Result<(), Fail> {
    let mut places = [DraftRecord::default(); 1];
    let mut cells = [GrantRecord::default(); 8];
    let mut register = Register::build(&mut places, &mut cells);
    let open = Call::Open {
        draft: 7,
        owner: 1,
        policy: 0,
        cells: 8,
    };
    let grant = Call::Grant {
        draft: 7,
        right: 0,
        caller: 1,
        account: 2,
        kind: 0,
    };
    let sheet = Step::Sheet {
        draft: 7,
        right: 0,
        room: 28,
    };
    let history = [
        Made {
            ruling: House,
            step: Step::Call(open),
        },
        Made {
            ruling: House,
            step: Step::Call(grant),
        },
        Made {
            ruling: House,
            step: sheet,
        },
    ];
    let replies = replay(rt.alloc(), &mut register, &history)?;
    assert_eq!(rt; replies.len(), 3);
    match replies.last() {
        Some(Replied::Sheet(Ok(25), page)) => {
            assert_eq!(rt;
                page.as_slice(),
                b"1 permitted 1\n2 denied 1\n\0\0\0".as_slice()
            );
            Ok(())
        }
        _ => Err(Fail::new("the last reply is no sheet")),
    }
}
