//! Systems of every kind, written and read back.
use crate::read_tests::TWO_STATES;
use crate::{SystemWriteFault, read_system, write_system};
use std::alloc::Global;
use std::process::Abort;
use std::test::Fail;
use systems::{Buffer, CodeList, Joint, Stored, System};

/// Enough words for the systems here.
const WORDS: usize = 3_000;

/// More bytes than the systems here take.
const ROOM: usize = 2_000;

/// What the bytes hold before a system is written.
const PATTERN: u8 = 0xEE;

/// Sees that two systems give the same answers.
fn check_same<A: System, B: System>(rt: &impl Abort, one: &A, other: &B) {
    assert_eq!(rt; one.states(), other.states());
    assert_eq!(rt; one.channels(), other.channels());
    for state in 0..one.states() {
        for channel in 0..one.channels() {
            assert_eq!(rt; one.reading(state, channel), other.reading(state, channel));
        }
        assert_eq!(rt; one.controller_moves(state), other.controller_moves(state));
        assert_eq!(rt;
            one.environment_moves(state),
            other.environment_moves(state)
        );
        for controller in 0..one.controller_moves(state) {
            for environment in 0..one.environment_moves(state) {
                let next = one.next(state, controller, environment);
                assert_eq!(rt; next, other.next(state, controller, environment));
            }
        }
    }
}

/// Writes the system, reads it back, and tries it with a byte too few.
fn check_round_trip<S: System>(rt: &impl Abort, heap: Global, system: &S) -> Result<(), Fail> {
    let mut bytes = vec![in heap; PATTERN; ROOM]?;
    let count = write_system(system, &mut bytes)?;
    assert!(rt; 0 < count && count < bytes.len());
    assert_eq!(rt; bytes.get(count).copied(), Some(PATTERN));
    let mut memory = vec![in heap; 0u16; WORDS]?;
    let read = read_system(&bytes, 0, &mut memory, 0)?;
    assert_eq!(rt; read.end, count);
    check_same(rt, system, &Stored::new(&memory));
    let mut short = vec![in heap; PATTERN; count - 1]?;
    assert_eq!(rt;
        write_system(system, &mut short),
        Err(SystemWriteFault::TooFewBytes)
    );
    assert!(rt;
        short == vec![in heap; PATTERN; count - 1]?,
        "a refused write changed a byte"
    );
    Ok(())
}

/// The stored system in the words, and a joint over a code list over it.
fn check_over_words(rt: &impl Abort, heap: Global, words: &[u16]) -> Result<(), Fail> {
    let stored = Stored::new(words);
    check_round_trip(rt, heap, &stored)?;
    let mut coded = CodeList::new(stored, 0, 100);
    coded.add(5, 6)?;
    check_round_trip(rt, heap, &Joint::new(coded, Buffer::new(1)))
}

#[test]
fn every_kind_reads_back(rt: HostRuntime) -> Result<(), Fail> {
    let heap = rt.alloc();
    let buffer = Buffer::new(3);
    check_round_trip(&rt, heap, &buffer)?;
    check_round_trip(&rt, heap, &Joint::new(Buffer::new(1), Buffer::new(1)))?;
    let mut codes = CodeList::new(buffer, 0, 3);
    codes.add(1, -700)?;
    check_round_trip(&rt, heap, &codes)
}

#[test]
fn stored_systems_read_back(rt: HostRuntime) -> Result<(), Fail> {
    let heap = rt.alloc();
    let mut memory = vec![in heap; 0u16; WORDS]?;
    read_system(&TWO_STATES, 0, &mut memory, 0)?;
    check_over_words(&rt, heap, &memory)?;
    check_over_words(&rt, heap, &[])
}

#[test]
fn large_systems_are_refused(rt: HostRuntime) -> Result<(), Fail> {
    let mut bytes = vec![in rt.alloc(); PATTERN; ROOM]?;
    let wide = Joint::new(Buffer::new(255), Buffer::new(1));
    assert_eq!(rt;
        write_system(&wide, &mut bytes),
        Err(SystemWriteFault::States)
    );
    let three = Joint::new(Buffer::new(0), Joint::new(Buffer::new(0), Buffer::new(0)));
    assert_eq!(rt;
        write_system(&three, &mut bytes),
        Err(SystemWriteFault::Moves)
    );
    let nine = Joint::new(Joint::new(three, three), three);
    assert_eq!(rt;
        write_system(&nine, &mut bytes),
        Err(SystemWriteFault::Channels)
    );
    assert_eq!(rt; bytes.first().copied(), Some(PATTERN));
    Ok(())
}
