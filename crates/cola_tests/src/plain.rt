//! The plain slow program beside a worked script and numbers.
use cola_plain::bounds::{ceiling_log, levels_of, request_bound};
use cola_plain::causes::{has_cause, rose_by};
use cola_plain::command::Command;
use cola_plain::script::{Choice, Move, scripted_session};
use cola_plain::session::mem_session;
use cola_plain::shape::Shape;
use cola_plain::turn::{faulted_steps, ticks_of, turns_text};
use std::test::Fail;

const SMALL: Shape = Shape {
    limit: 4,
    key_limit: 24,
    value_limit: 32,
    stamped: false,
};

const ASKED: &[u8] =
    b"put a 1\nput b 2\nput c 3\nrange a d\nget b\nclose\nget a\nclose\nopen\nopen\nopen\ncount\nclose\nopen\nopen\n";

// How each step goes, and its cell accesses.
const FAULTED: [(Choice, u64); 15] = [
    (Choice::Plain, 3),
    (Choice::Faulted(0, 0), 2),
    (Choice::Plain, 4),
    (Choice::Faulted(1, 0), 5),
    (Choice::Plain, 3),
    (Choice::Faulted(0, 7), 0),
    (Choice::Faulted(0, 7), 0),
    (Choice::Plain, 0),
    (Choice::ShortOfMemory, 0),
    (Choice::Faulted(0, 0), 0),
    (Choice::Plain, 0),
    (Choice::Faulted(0, 0), 0),
    (Choice::Plain, 0),
    (Choice::Faulted(0, 1), 0),
    (Choice::Plain, 0),
];

const ANSWERED: &[u8] =
    b"new # 3\nfault\nnew # 4\nrow a 1\nfault\nnone # 3\nfault\nshut\nclosed\nmemory\nfault\nopen 2\ncount 2\nclosed\nfault\nnotclosed\n";

#[test]
fn a_session_answers(rt: HostRuntime) -> Result<(), Fail> {
    let asked = b"put a 1\nput b 2\nput a 3\ndel a\nput b 2\nget a\n";
    let text = mem_session(rt.alloc(), 1, asked)?;
    assert!(rt; text.as_slice() == b"new\nfull\nold 1\ngone 3\nnew\nnone\n".as_slice());
    Ok(())
}

#[test]
fn a_script_is_followed(rt: HostRuntime) -> Result<(), Fail> {
    let mut script = Vec::new(rt.alloc());
    for (choice, ticks) in FAULTED {
        script.push(Move { choice, ticks })?;
    }
    let turns = scripted_session(rt.alloc(), &SMALL, ASKED, &script)?;
    let text = turns_text(rt.alloc(), &turns, true)?;
    assert!(rt; text.as_slice() == ANSWERED);
    assert!(rt; faulted_steps(&turns) == 5 && ticks_of(&turns) == 17);
    Ok(())
}

// Keys, the least power of two that is not below them, the levels of a store for them, and the bounds on a
// put, a get and a range.
const BOUNDS: [(u64, u64, u64, [u64; 3]); 7] = [
    (1, 0, 4, [160, 32, 100]),
    (32, 5, 4, [160, 32, 100]),
    (33, 6, 5, [200, 40, 173]),
    (1_000, 10, 9, [360, 72, 2_129]),
    (65_536, 16, 15, [600, 120, 131_207]),
    (1_000_000, 20, 19, [760, 152, 2_097_323]),
    (4_294_967_295, 32, 31, [1_240, 248, 8_589_934_871]),
];

#[test]
fn bounds_are_those_of_worked_numbers(rt: HostRuntime) {
    for (keys, power, levels, wanted) in BOUNDS {
        assert!(rt; ceiling_log(keys) == power && levels_of(keys) == levels && levels <= 61);
        let put = request_bound(levels, &Some(Command::Put(b"a", b"1")));
        let get = request_bound(levels, &Some(Command::Get(b"a")));
        let range = request_bound(levels, &Some(Command::Range(b"a", b"b")));
        assert!(rt; [put, get, range] == wanted, "{keys} keys");
    }
}

// The bounds of the other commands are those of these, or none.
#[test]
fn bounds_go_by_commands(rt: HostRuntime) {
    for (request, wanted) in [
        (None, 0),
        (Some(Command::PutIf(b"a", 2, b"1")), 160),
        (Some(Command::Del(b"a")), 160),
        (Some(Command::Stamp(b"a")), 32),
        (Some(Command::Scan(b"a", 2)), 100),
        (Some(Command::Count), 0),
        (Some(Command::Close), 0),
    ] {
        assert!(rt; request_bound(4, &request) == wanted);
    }
}

// So many events, a count before and after, and whether as many were counted.
const COUNTS: [(u64, u64, u64, bool); 7] = [
    (0, 5, 5, true),
    (1, 5, 5, false),
    (1, 5, 6, true),
    (3, 5, 7, false),
    (3, 5, 8, true),
    (1, u64::MAX - 1, u64::MAX - 1, false),
    (2, u64::MAX, u64::MAX, true),
];

#[test]
fn causes_are_those_of_worked_counts(rt: HostRuntime) {
    for (times, before, now, wanted) in COUNTS {
        assert!(rt; rose_by(times, before, now) == wanted);
    }
    let of_none = has_cause(&Ok(()), 5, 5);
    let of_kept = has_cause(&Err(()), 5, 5);
    let of_risen = has_cause(&Err(()), 5, 6);
    assert!(rt; of_none && !of_kept && of_risen);
}
