//! Examples of the layout check and of stored systems.
ghost use Rattle.std.specs.Prelude.{◌<◌};

use crate::layout::{LayoutFault, check_layout};
use crate::reading::word_of_reading;
use crate::stored::Stored;
use crate::system::System;

/// One state, one channel with reading 7, one move each, next state 0, and one more word.
fn small() -> [u16; 262] {
    let mut words = [0; 262];
    words[0] = 1;
    words[1] = 1;
    words[2] = word_of_reading(7);
    words[3] = 1;
    words[4] = 1;
    words
}

/// The number of the refusal of `small` with another word at a place, if it is refused.
fn refusal(at: usize, word: u16) -> Option<u8>
    requires { at < 262 }
{
    let mut words = small();
    words[at] = word;
    check_layout(&words).err().map(|fault| fault.number())
}

#[test]
fn rests_without_words(rt: HostRuntime) {
    let resting = Stored::new(&[]);
    assert_eq!(rt; resting.states(), 1);
    assert_eq!(rt; resting.channels(), 1);
    assert_eq!(rt; resting.reading(0, 0), 0);
    assert_eq!(rt; resting.controller_moves(0), 1);
    assert_eq!(rt; resting.environment_moves(0), 1);
    assert_eq!(rt; resting.next(0, 0, 0), 0);
}

#[test]
fn answers_from_its_words(rt: HostRuntime) {
    let words = small();
    let stored = Stored::new(&words);
    assert_eq!(rt; stored.reading(0, 0), 7);
    assert_eq!(rt; stored.reading(0, 1), 0);
}

#[test]
fn takes_what_it_needs(rt: HostRuntime) {
    let words = small();
    assert_eq!(rt; check_layout(&words[0..261]), Ok(261));
    assert_eq!(rt; check_layout(&words), Ok(261));
    assert_eq!(rt; check_layout(&words[0..260]), Err(LayoutFault::TooShort));
    assert_eq!(rt; check_layout(&words[0..1]), Err(LayoutFault::TooShort));
}

#[test]
fn refuses_by_number(rt: HostRuntime) {
    assert_eq!(rt; refusal(0, 257), Some(18));
    assert_eq!(rt; refusal(1, 9), Some(19));
    assert_eq!(rt; refusal(0, 2), Some(20));
    assert_eq!(rt; refusal(3, 17), Some(21));
    assert_eq!(rt; refusal(5, 1), Some(22));
    assert_eq!(rt; refusal(6, 1), None);
}
