//! System files, good and bad, read into a memory that holds a pattern.
use crate::{ReadFault, Reason, SystemRead, read_system};
use codec::NumberFault;
use std::alloc::{AllocError, Global};
use std::process::Abort;
use std::test::Fail;
use systems::{Stored, System, words_taken};

/// What each word holds before a file is read.
const PATTERN: u16 = 0xABCD;

/// More words than the systems here take, with those in front of them.
const ENOUGH: usize = 700;

/// Where the system is put.
const AT: usize = 100;

/// Two states of one channel: the first has two moves against one, the second one against two.
pub(crate) const TWO_STATES: [u8; 13] = [2, 1, 10, 2, 1, 0, 1, 0x83, 0x01, 1, 2, 1, 0];

/// How many words that system takes.
fn two_states_words() -> usize {
    words_taken(2, 1)
}

fn pattern(heap: Global, words: usize) -> Result<Vec<u16>, AllocError> {
    vec![in heap; PATTERN; words]
}

/// Reads the file into a memory of so many words, and sees that a refusal leaves the pattern whole.
fn read(
    rt: &impl Abort,
    heap: Global,
    bytes: &[u8],
    words: usize,
) -> Result<Result<SystemRead, ReadFault>, Fail> {
    let mut memory = pattern(heap, words)?;
    let read = read_system(bytes, 0, &mut memory, AT);
    if read.is_err() {
        assert!(rt;
            memory == pattern(heap, words)?,
            "a refused read changed a word"
        );
    }
    Ok(read)
}

#[test]
fn a_system_is_put_into_the_middle(rt: HostRuntime) -> Result<(), Fail> {
    let heap = rt.alloc();
    let mut memory = pattern(heap, ENOUGH)?;
    let read = read_system(&TWO_STATES, 0, &mut memory, AT);
    assert_eq!(rt;
        read,
        Ok(SystemRead {
            words: two_states_words(),
            end: 13,
        })
    );
    assert!(rt; memory.len() == ENOUGH);
    let system = Stored::new(&memory[AT..]);
    assert_eq!(rt; [system.states(), u16::from(system.channels())], [2, 1]);
    assert_eq!(rt; [system.reading(0, 0), system.reading(1, 0)], [5, -66]);
    assert_eq!(rt;
        [system.controller_moves(0), system.environment_moves(0)],
        [2, 1]
    );
    assert_eq!(rt; [system.next(0, 0, 0), system.next(0, 1, 0)], [0, 1]);
    assert_eq!(rt;
        [system.controller_moves(1), system.environment_moves(1)],
        [1, 2]
    );
    assert_eq!(rt; [system.next(1, 0, 0), system.next(1, 0, 1)], [1, 0]);
    let behind = AT.saturating_add(two_states_words());
    assert_eq!(rt; memory.get(AT - 1), Some(&PATTERN));
    assert_eq!(rt; memory.get(behind), Some(&PATTERN));
    Ok(())
}

#[test]
fn a_cut_file_has_ended(rt: HostRuntime) -> Result<(), Fail> {
    for cut in 0..TWO_STATES.len() {
        let read = read(&rt, rt.alloc(), &TWO_STATES[..cut], ENOUGH)?;
        let Err(fault) = read else {
            return Err(Fail::new("a cut file was read"));
        };
        assert_eq!(rt; fault.reason.number(), 15);
        // the number that is cut begins at the end, or a byte before it
        assert!(rt; fault.place == cut || fault.place.saturating_add(1) == cut);
    }
    Ok(())
}

#[test]
fn each_fault_has_its_place_and_state(rt: HostRuntime) -> Result<(), Fail> {
    let too_long = Reason::Number(NumberFault::TooLong);
    let too_large = Reason::Number(NumberFault::TooLarge);
    let one_word_less = AT.saturating_add(two_states_words()).saturating_sub(1);
    let cases: [(&[u8], usize, Reason, usize, u16); 11] = [
        (&[0, 9], ENOUGH, Reason::States, 0, 0),
        (&[0x81, 0x02, 1], ENOUGH, Reason::States, 0, 0),
        (&[1, 0], ENOUGH, Reason::Channels, 1, 0),
        (&[0x80, 0x02, 9], ENOUGH, Reason::Channels, 2, 0),
        (&TWO_STATES, one_word_less, Reason::TooShort, 1, 0),
        (&TWO_STATES, 99, Reason::TooShort, 1, 0),
        (&[2, 1, 10, 2, 1, 0, 1, 3, 0], ENOUGH, Reason::Moves, 8, 1),
        (&[2, 1, 10, 2, 17], ENOUGH, Reason::Moves, 4, 0),
        (&[2, 1, 10, 2, 1, 0, 2], ENOUGH, Reason::NextState, 6, 0),
        (&[2, 1, 0x80, 0x80, 0x80], ENOUGH, too_long, 2, 0),
        (
            &[2, 1, 10, 2, 1, 0, 1, 0x80, 0x80, 4],
            ENOUGH,
            too_large,
            7,
            1,
        ),
    ];
    for (bytes, words, reason, place, state) in cases {
        assert_eq!(rt;
            read(&rt, rt.alloc(), bytes, words)?,
            Err(ReadFault {
                reason,
                place,
                state,
            })
        );
    }
    Ok(())
}
