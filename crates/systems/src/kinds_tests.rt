//! Examples of buffers, joints and lists of codes.
ghost use Rattle.std.specs.Prelude.{◌≡◌, ℕ, ◌-◌, ◌≤◌, ltb, if◌then◌else◌, nat_lt, refl};
ghost use Rattle.std.proofs.Common.{arith};
ghost use Rattle.std.proofs.lemmas.Bool.{cond_both, cond-false, cond-true, le-ltb, lt-ltb};
ghost use Rattle.systems.specs.Meaning.{no_question};

use crate::buffer::Buffer;
use crate::code_list::{CodeFault, CodeList, MOST_CODES};
use crate::joint::Joint;
use crate::stored::Stored;
use crate::system::System;
use std::test::Fail;

/// A system beside itself.
fn doubled<S: System + Copy>(system: S) -> Joint<S, S> {
    Joint::new(system, system)
}

#[test]
fn moves_of_a_buffer_have_their_numbers(rt: HostRuntime) {
    assert_eq!(rt; [Buffer::WAIT, Buffer::TAKE, Buffer::SEND], [0, 1, 2]);
    assert_eq!(rt; [Buffer::RADIO_UP, Buffer::RADIO_DOWN], [0, 1]);
}

#[test]
fn steps_both_halves(rt: HostRuntime) {
    let joint = doubled(Buffer::new(1));
    assert_eq!(rt; joint.states(), 4);
    assert_eq!(rt; joint.next(0, 5, 1), 2);
    assert_eq!(rt; joint.reading(2, 0), 1);
    assert_eq!(rt; joint.reading(2, 1), 0);
}

/// A system with as many states, channels and moves as there can be.
#[derive(Clone, Copy)]
struct Wide;

impl System for Wide {
    ghost meaning = { λ _. record {
      states = 65535;
      channels = 255;
      reading = λ _ _. no_question;
      controller_moves = λ w. (if ltb w 65535 then 65535 else 0);
      environment_moves = λ w. (if ltb w 65535 then 65535 else 0);
      next = λ _ _ _. 0;
    } };

    ghost lawful = { λ _. record {
      some_state = omega arith;
      states_bound = omega arith;
      some_channel = omega arith;
      channels_bound = omega arith;
      some_controller_move = λ w h. omega (arith, cond-true {A = ℕ} (nat_lt w 65535) 65535 0 (lt-ltb w 65535 h));
      controller_moves_bound = λ w. cond_both {A = ℕ} (nat_lt w 65535) 65535 0 (λ v. v ≤ 65535) (λ _. omega arith) (λ _. omega arith);
      some_environment_move = λ w h. omega (arith, cond-true {A = ℕ} (nat_lt w 65535) 65535 0 (lt-ltb w 65535 h));
      environment_moves_bound = λ w. cond_both {A = ℕ} (nat_lt w 65535) 65535 0 (λ v. v ≤ 65535) (λ _. omega arith) (λ _. omega arith);
      next_bound = λ _ _ _. omega arith;
      no_state_reading = λ _ _ _. refl;
      no_channel_reading = λ _ _ _. refl;
      no_state_controller = λ w h. cond-false {A = ℕ} (nat_lt w 65535) 65535 0 (le-ltb w 65535 h);
      no_state_environment = λ w h. cond-false {A = ℕ} (nat_lt w 65535) 65535 0 (le-ltb w 65535 h);
      no_controller_next = λ _ _ _ _. refl;
      no_environment_next = λ _ _ _ _. refl;
    } };

    fn states(&self) -> u16 {
        u16::MAX
    }

    fn channels(&self) -> u8 {
        u8::MAX
    }

    fn reading(&self, _state: u16, _channel: u8) -> i16 {
        0
    }

    fn controller_moves(&self, state: u16) -> u16 {
        if state < u16::MAX { u16::MAX } else { 0 }
    }

    fn environment_moves(&self, state: u16) -> u16 {
        if state < u16::MAX { u16::MAX } else { 0 }
    }

    fn next(&self, _state: u16, _controller: u16, _environment: u16) -> u16 {
        0
    }
}

#[test]
fn counts_stop(rt: HostRuntime) {
    let joint = doubled(Wide);
    assert_eq!(rt; joint.states(), 65_535);
    assert_eq!(rt; joint.channels(), 255);
    assert_eq!(rt; joint.controller_moves(0), 65_535);
    assert_eq!(rt; joint.environment_moves(0), 65_535);
}

#[test]
fn next_stops_at_the_last_state(rt: HostRuntime) {
    let joint = doubled(Buffer::new(255));
    assert_eq!(rt; joint.next(65_534, Buffer::TAKE, Buffer::RADIO_UP), 65_534);
}

/// The last state of a system: every system has one.
fn last_state<S: System>(system: &S) -> u16
    ensures { result ≡ (S.System.meaning system.now).states - 1 }
{
    system.states() - 1
}

#[test]
fn layers_nest(rt: HostRuntime) {
    let coded = CodeList::new(Stored::new(&[]), 0, 1);
    let joint = Joint::new(doubled(Buffer::new(2)), coded);
    let whole = CodeList::new(doubled(joint), 2, 2);
    assert_eq!(rt; last_state(&whole), 80);
    assert_eq!(rt; whole.channels(), 6);
}

#[test]
fn first_entry_wins(rt: HostRuntime) -> Result<(), Fail> {
    let mut list = CodeList::new(Buffer::new(9), 0, 7);
    list.add(1, 4)?;
    list.add(1, 5)?;
    list.add(2, 7)?;
    assert_eq!(rt; list.reading(1, 0), 4);
    assert_eq!(rt; list.reading(2, 0), 0);
    assert_eq!(rt; list.reading(6, 0), 6);
    assert_eq!(rt; list.reading(7, 0), 0);
    Ok(())
}

#[test]
fn no_question_is_not_translated(rt: HostRuntime) -> Result<(), Fail> {
    let mut list = CodeList::new(Buffer::new(9), 0, 7);
    list.add(0, 4)?;
    assert_eq!(rt; list.reading(0, 0), 4);
    assert_eq!(rt; list.reading(10, 0), 0);
    assert_eq!(rt; list.reading(0, 1), 0);
    Ok(())
}

#[test]
fn ninth_entry_is_refused(rt: HostRuntime) -> Result<(), Fail> {
    let mut list = CodeList::new(Buffer::new(9), 0, 10);
    for _ in 0..MOST_CODES {
        list.add(1, 2)?;
    }
    assert_eq!(rt; list.add(3, 4), Err(CodeFault::Full));
    assert_eq!(rt; list.reading(3, 0), 3);
    Ok(())
}
