#![tactic(auto)]

// Streams run under the house ruling, and what they must write; grants, requests and sheets; charts, and which
// lines decide.
#[cfg(test)]
mod granting;
#[cfg(test)]
mod replaying;
#[cfg(test)]
mod settling;

#[cfg(test)]
mod tests {
    use commands::{Stepped, StreamFault, run, step};
    use model::{DraftRecord, GrantRecord};
    use rights::Register;
    use rulings::House;
    use std::alloc::Global;
    use std::process::Abort;
    use std::test::Fail;
    use terms::CELLS;

    fn writes(
        rt: &impl Abort,
        heap: Global,
        register: &mut Register,
        stream: &[u8],
        lines: &[u8],
    ) -> Result<(), Fail> {
        let told = run(heap, register, &House, stream)?;
        assert_eq!(rt; told.as_slice(), lines);
        Ok(())
    }

    // An empty stream, one that ends within a command, and one with a command behind an unknown byte leave
    // the draft to be opened.
    #[test]
    fn what_cannot_be_read_is_not_obeyed(rt: HostRuntime) -> Result<(), Fail> {
        let heap = rt.alloc();
        let mut places = [DraftRecord::default(); 1];
        let mut cells = [GrantRecord::default(); 8];
        let mut register = Register::build(&mut places, &mut cells);
        writes(&rt, heap, &mut register, &[], b"")?;
        writes(
            &rt,
            heap,
            &mut register,
            &[1, 0, 7],
            b"0 refused 19 stream\n",
        )?;
        writes(
            &rt,
            heap,
            &mut register,
            &[255, 1, 0, 7, 0, 1, 0, 0, 8],
            b"0 refused 18 stream\n",
        )?;
        writes(
            &rt,
            heap,
            &mut register,
            &[1, 0, 7, 0, 1, 0, 0, 8],
            b"0 done\n",
        )
    }

    // At the end of the stream a short buffer is not looked at; behind a line a buffer keeps what it held.
    #[test]
    fn a_line_wants_a_buffer_of_32_bytes(rt: HostRuntime) {
        let mut places = [DraftRecord::default(); 1];
        let mut cells = [GrantRecord::default(); 8];
        let mut register = Register::build(&mut places, &mut cells);
        let open = [1, 0, 7, 0, 1, 0, 0, 8];
        let mut short = [b'.'; 31];
        let told = step(&mut register, &House, &open, 0, &mut short);
        assert!(rt; matches!(told, Err(StreamFault::ShortBuffer(0))));
        let told = step(&mut register, &House, &open, 8, &mut short);
        assert!(rt; matches!(told, Ok(None)));
        let mut line = [b'.'; 32];
        let told = step(&mut register, &House, &open, 0, &mut line);
        assert!(rt; matches!(told, Ok(Some(Stepped { length: 7, next: 8 }))));
        assert_eq!(rt; &line, b"0 done\n.........................");
    }

    // Account 512, no cells, 1,025 cells and policy 4 are refused; account 511, 1,024 cells and policy 3
    // are not.
    #[test]
    fn bounds_hold_to_the_last_number(rt: HostRuntime) -> Result<(), Fail> {
        let heap = rt.alloc();
        let mut places = [DraftRecord::default(); 1];
        let mut cells = vec![in heap; GrantRecord::default(); CELLS]?;
        let mut register = Register::build(&mut places, &mut cells);
        writes(
            &rt,
            heap,
            &mut register,
            &[1, 0, 7, 2, 0, 3, 4, 0],
            b"0 refused 1 register\n",
        )?;
        writes(
            &rt,
            heap,
            &mut register,
            &[1, 0, 7, 1, 255, 4, 4, 0],
            b"0 refused 4 register\n",
        )?;
        writes(
            &rt,
            heap,
            &mut register,
            &[1, 0, 7, 1, 255, 3, 0, 0],
            b"0 refused 5 register\n",
        )?;
        writes(
            &rt,
            heap,
            &mut register,
            &[1, 0, 7, 1, 255, 3, 4, 1],
            b"0 refused 5 register\n",
        )?;
        writes(
            &rt,
            heap,
            &mut register,
            &[1, 0, 7, 1, 255, 3, 4, 0],
            b"0 done\n",
        )?;
        writes(
            &rt,
            heap,
            &mut register,
            &[5, 0, 7, 1, 255, 4],
            b"0 refused 4 register\n",
        )?;
        writes(&rt, heap, &mut register, &[5, 0, 7, 1, 255, 3], b"0 done\n")
    }

    #[test]
    fn the_last_place_is_taken(rt: HostRuntime) -> Result<(), Fail> {
        let mut places = [DraftRecord::default(); 1];
        let mut cells = [GrantRecord::default(); 8];
        let mut register = Register::build(&mut places, &mut cells);
        writes(
            &rt,
            rt.alloc(),
            &mut register,
            &[1, 0, 7, 0, 1, 0, 0, 4, 1, 0, 8, 0, 1, 0, 0, 4],
            b"0 done\n8 refused 8 table\n",
        )
    }

    // The first draft reserves all cells; once it is closed another may.
    #[test]
    fn a_closed_draft_gives_its_cells_back(rt: HostRuntime) -> Result<(), Fail> {
        let heap = rt.alloc();
        let mut places = [DraftRecord::default(); 2];
        let mut cells = [GrantRecord::default(); 8];
        let mut register = Register::build(&mut places, &mut cells);
        writes(
            &rt,
            heap,
            &mut register,
            &[1, 0, 7, 0, 1, 0, 0, 8],
            b"0 done\n",
        )?;
        writes(
            &rt,
            heap,
            &mut register,
            &[1, 0, 8, 0, 1, 0, 0, 1],
            b"0 refused 9 register\n",
        )?;
        writes(&rt, heap, &mut register, &[2, 0, 7, 0, 1], b"0 closed 0\n")?;
        writes(
            &rt,
            heap,
            &mut register,
            &[1, 0, 8, 0, 1, 0, 0, 8],
            b"0 done\n",
        )
    }

    // The owner of draft 7 grants on to 2 and 3; 2 permits 4 and 3 denies it, and policy 1 lets the denial stand. Account 4
    // may not grant. With the grant to 2 falls what 2 granted.
    #[test]
    fn grants_are_passed_on_and_withdrawn(rt: HostRuntime) -> Result<(), Fail> {
        let mut places = [DraftRecord::default(); 1];
        let mut cells = [GrantRecord::default(); 8];
        let mut register = Register::build(&mut places, &mut cells);
        writes(
            &rt,
            rt.alloc(),
            &mut register,
            &[
                1, 0, 7, 0, 1, 1, 0, 8, 3, 0, 7, 0, 0, 1, 0, 2, 2, 3, 0, 7, 0, 0, 1, 0, 3, 2, 3, 0,
                7, 0, 0, 2, 0, 4, 1, 3, 0, 7, 0, 0, 3, 0, 4, 0, 6, 0, 7, 0, 0, 4, 3, 0, 7, 0, 0, 4,
                0, 1, 0, 4, 0, 7, 0, 0, 1, 0, 2, 6, 0, 7, 0, 0, 4,
            ],
            b"0 done\n8 granted 1\n17 granted 2\n26 granted 3\n35 granted 4\n44 denied 3\n50 refused 11 register\n59 withdrawn 2\n67 denied 3\n",
        )
    }

    // The same grant of two rights on one draft and of one right on another: each goes alone.
    #[test]
    fn rights_and_drafts_are_apart(rt: HostRuntime) -> Result<(), Fail> {
        let heap = rt.alloc();
        let mut places = [DraftRecord::default(); 2];
        let mut cells = [GrantRecord::default(); 8];
        let mut register = Register::build(&mut places, &mut cells);
        writes(
            &rt,
            heap,
            &mut register,
            &[1, 0, 7, 0, 1, 0, 0, 4, 1, 0, 8, 0, 1, 0, 0, 4],
            b"0 done\n8 done\n",
        )?;
        writes(
            &rt,
            heap,
            &mut register,
            &[
                3, 0, 7, 0, 0, 1, 0, 2, 1, 3, 0, 7, 1, 0, 1, 0, 2, 1, 3, 0, 8, 0, 0, 1, 0, 2, 1,
            ],
            b"0 granted 1\n9 granted 2\n18 granted 1\n",
        )?;
        writes(
            &rt,
            heap,
            &mut register,
            &[4, 0, 7, 0, 0, 1, 0, 2, 6, 0, 7, 0, 0, 2, 6, 0, 7, 1, 0, 2],
            b"0 withdrawn 1\n8 undecided\n14 permitted 1\n",
        )?;
        writes(
            &rt,
            heap,
            &mut register,
            &[2, 0, 7, 0, 1, 6, 0, 7, 1, 0, 2, 6, 0, 8, 0, 0, 2],
            b"0 closed 1\n5 refused 6 table\n11 permitted 1\n",
        )
    }
}
