//! Runs in parts, runs that ended, and sinks that fail.
use crate::loop_machines::{FUNCTIONS, PLENTY, Part, goes, text_of};
use a95_base::{FaultKind, Line};
use loop_machine::End;
use loop_tree::StuckState;
use std::alloc::Global;
use std::test::Fail;

const MANY: &str =
    "for (k1 = 0; k1 < 40; k1 = k1 + 1) {\ni0 = i0 + k1;\n}\nf_put_int(i0);\nf_record();\n";

/// A part that waits for more turns, before anything is written.
fn limit(turns: u128) -> Part {
    Part {
        turns,
        end: End::TurnLimit,
        written: b"",
    }
}

/// Whether a run in parts, of which the first has so many turns and the last only one, comes to its end with the last.
fn waits_for_more(alloc: Global, first: u128) -> Result<bool, Fail> {
    let text = text_of(alloc, MANY, "")?;
    let last = Part {
        turns: 1,
        end: End::Ended,
        written: b" 780\n",
    };
    let parts = [limit(first), limit(39u128.saturating_sub(first)), last];
    goes(alloc, text.as_slice(), b"", &[], &parts, 0)
}

#[test]
fn a_loop_of_many_turns_waits_for_more(rt: HostRuntime) -> Result<(), Fail> {
    for first in [0, 1, 2, 17, 39] {
        assert!(rt; waits_for_more(rt.alloc(), first)?, "{first} turns");
    }
    Ok(())
}

const LOOP: &str =
    "for (k1 = 0; k1 < 5; k1 = k1 + 1) {\nf_put_int(k1);\nf_record();\n}\nf2(1);\nf_record();\n";

const WHOLE: &[u8] = b" 0\n 1\n 2\n 3\n 4\n 1\n";

/// How much of it is written after so many turns.
const WRITTEN_AFTER: [usize; 8] = [0, 3, 6, 9, 12, 15, 15, 18];

/// A run with so many turns more, which are so many in all.
fn part_of(more: usize, turns: usize) -> Part {
    let length = WRITTEN_AFTER.get(turns).copied().unwrap_or(0);
    Part {
        turns: more as u128,
        end: if turns < 7 {
            End::TurnLimit
        } else {
            End::Ended
        },
        written: WHOLE.get(..length).unwrap_or(b""),
    }
}

const REST: Part = Part {
    turns: PLENTY,
    end: End::Ended,
    written: WHOLE,
};

/// Whether a run in two parts comes to what a run with all their turns comes to, and goes on as that does.
fn parts_are_one_run(alloc: Global, first: usize, turns: usize) -> Result<bool, Fail> {
    let text = text_of(alloc, LOOP, FUNCTIONS)?;
    let parts = [
        part_of(first, first),
        part_of(turns.saturating_sub(first), turns),
        // with no turn more nothing follows
        part_of(0, turns),
        REST,
        REST,
    ];
    goes(alloc, text.as_slice(), b"", &[], &parts, 0)
}

#[test]
fn parts_of_a_run_are_one_run(rt: HostRuntime) -> Result<(), Fail> {
    for turns in 0..=7 {
        // with so many turns at once, and in two parts
        for first in 0..=turns {
            assert!(rt;
                parts_are_one_run(rt.alloc(), first, turns)?,
                "{first} of {turns} turns"
            );
        }
    }
    Ok(())
}

const BROKEN: Part = Part {
    turns: PLENTY,
    end: End::WriteFault,
    written: b" 0\n 1",
};

#[test]
fn a_sink_that_fails_ends_the_run(rt: HostRuntime) -> Result<(), Fail> {
    let text = text_of(rt.alloc(), LOOP, FUNCTIONS)?;
    assert!(rt; goes(rt.alloc(), text.as_slice(), b"", &[2], &[BROKEN], 1)?);
    assert!(rt; goes(rt.alloc(), text.as_slice(), b"", &[2], &[BROKEN, BROKEN], 1)?);
    Ok(())
}

/// It writes six records, of several values, of one and of none.
const RECORDS: &str =
    "f_put_int(1);\nf_put_text(\"ab\");\nf_put_log(1);\nf_record();\nf_record();\nf_put_int(-20);\nf_record();\nfor (k1 = 0; k1 < 3; k1 = k1 + 1) {\nf_put_text(\"x\");\nf_put_int(k1);\nf_record();\n}\n";

/// Which put fails, having passed two bytes, and what is written then: all of the records before, and that front.
const FAILING_RECORD: [(u64, &str); 6] = [
    (1, " 1"),
    (2, " 1 ab T\n\n"),
    (3, " 1 ab T\n\n -"),
    (4, " 1 ab T\n\n -20\n x"),
    (5, " 1 ab T\n\n -20\n x 0\n x"),
    (6, " 1 ab T\n\n -20\n x 0\n x 1\n x"),
];

/// Of puts that fail, the first behind which something else was written.
fn first_not_one_put(alloc: Global, cases: &[(u64, &'static str)]) -> Result<Option<u64>, Fail> {
    let text = text_of(alloc, RECORDS, "")?;
    for (failing, written) in cases {
        let broken = Part {
            turns: PLENTY,
            end: End::WriteFault,
            written: written.as_bytes(),
        };
        if !goes(alloc, text.as_slice(), b"", &[*failing], &[broken], 1)? {
            return Ok(Some(*failing));
        }
    }
    Ok(None)
}

const ALL_RECORDS: Part = Part {
    turns: PLENTY,
    end: End::Ended,
    written: b" 1 ab T\n\n -20\n x 0\n x 1\n x 2\n",
};

#[test]
fn each_record_is_one_put(rt: HostRuntime) -> Result<(), Fail> {
    assert_eq!(rt; first_not_one_put(rt.alloc(), &FAILING_RECORD)?, None);
    let text = text_of(rt.alloc(), RECORDS, "")?;
    // there is no seventh put
    assert!(rt; goes(rt.alloc(), text.as_slice(), b"", &[7], &[ALL_RECORDS], 0)?);
    Ok(())
}

const ENDS: [(&str, End); 3] = [
    (
        "f_put_int(1);\nf_record();\nf_at(2);\nf_fault(1);\n",
        End::Fault {
            kind: FaultKind::ZeroDivide,
            line: Line(2),
        },
    ),
    (
        "f_put_int(1);\nf_record();\ni1 = 1 / 0;\n",
        End::Stuck {
            why: StuckState::ZeroDivisor,
        },
    ),
    (
        "f_put_int(1);\nf_record();\nf_put_int(2);\nf_stop();\n",
        End::Ended,
    ),
];

fn ends_twice(alloc: Global, main: &str, end: End) -> Result<bool, Fail> {
    let text = text_of(alloc, main, "")?;
    let written = b" 1\n";
    let parts = [
        Part {
            turns: 0,
            end,
            written,
        },
        Part {
            turns: 5,
            end,
            written,
        },
    ];
    goes(alloc, text.as_slice(), b"", &[], &parts, 0)
}

#[test]
fn an_end_is_answered_again(rt: HostRuntime) -> Result<(), Fail> {
    for (main, end) in &ENDS {
        assert!(rt; ends_twice(rt.alloc(), *main, *end)?, "{main}");
    }
    Ok(())
}
