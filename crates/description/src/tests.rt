//! The text of a small system, line by line.
ghost use Rattle.std.proofs.Common.{ap, arith};
ghost use Rattle.std.specs.Prelude.{ℕ, ◌-◌, pos, neg_ℤ};

use crate::system_text;
use std::test::Fail;
use systems::System;

/// Two states: the first has two controller moves and three environment moves, the second has one of each.
struct Fading;

impl System for Fading {
    ghost meaning = { λ _. record {
      states = 2;
      channels = 1;
      reading = λ w k. neg_ℤ (pos (1 - w - k));
      controller_moves = λ w. 2 - w;
      environment_moves = λ w. 3 - w - w;
      next = λ w a b. 1 - w - a - b;
    } };

    ghost lawful = { λ _. record {
      some_state = omega arith;
      states_bound = omega arith;
      some_channel = omega arith;
      channels_bound = omega arith;
      some_controller_move = λ w h. omega arith;
      controller_moves_bound = λ w. omega arith;
      some_environment_move = λ w h. omega arith;
      environment_moves_bound = λ w. omega arith;
      next_bound = λ w a b. omega arith;
      no_state_reading = λ w k h. ap (λ (n : ℕ). neg_ℤ (pos n)) {x = 1 - w - k} {y = 0} (omega arith);
      no_channel_reading = λ w k h. ap (λ (n : ℕ). neg_ℤ (pos n)) {x = 1 - w - k} {y = 0} (omega arith);
      no_state_controller = λ w h. omega arith;
      no_state_environment = λ w h. omega arith;
      no_controller_next = λ w a b h. omega arith;
      no_environment_next = λ w a b h. omega arith;
    } };

    fn states(&self) -> u16 {
        2
    }

    fn channels(&self) -> u8 {
        1
    }

    fn reading(&self, state: u16, channel: u8) -> i16 {
        if state == 0 && channel == 0 { -1 } else { 0 }
    }

    fn controller_moves(&self, state: u16) -> u16 {
        2u16.saturating_sub(state)
    }

    fn environment_moves(&self, state: u16) -> u16 {
        3u16.saturating_sub(state).saturating_sub(state)
    }

    fn next(&self, state: u16, controller: u16, environment: u16) -> u16 {
        1u16.saturating_sub(state)
            .saturating_sub(controller)
            .saturating_sub(environment)
    }
}

#[test]
fn fading_as_text(rt: HostRuntime) -> Result<(), Fail> {
    let text = system_text(rt.alloc(), &Fading)?;
    let expected = "states 2
channels 1
state 0
  readings -1
  controller moves 2
  environment moves 3
  move 0 against 0 leads to 1
  move 0 against 1 leads to 0
  move 0 against 2 leads to 0
  move 1 against 0 leads to 0
  move 1 against 1 leads to 0
  move 1 against 2 leads to 0
state 1
  readings 0
  controller moves 1
  environment moves 1
  move 0 against 0 leads to 0
";
    assert_eq!(rt; text.as_str(), expected);
    Ok(())
}
