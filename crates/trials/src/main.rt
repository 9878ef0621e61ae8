//! Draws many exchanges, solves each a second way, and prints how often the docket's calls agreed.
#![tactic(auto)]

use crate::compare::{Tally, Trials};
use crate::draw::Shape;
use anyhow::ensure;
use likeness::{Exact, Likeness, SeaState, Within};
use systems::{CodeList, Joint, Stored};

mod compare;
mod draw;
mod pair_set;
mod solve;

/// How many exchanges of each sort are drawn.
const TRIALS: u32 = 300;

/// Systems of few states and moves, with two readings.
const SMALL: Shape = Shape {
    states: 4,
    channels: 1,
    controller: 3,
    environment: 3,
    readings: 2,
    first: 0,
};

/// Makes the trials of a sort from the seed, and prints their tally.
// Runtime and name are two parameters, here and below: a struct of both would be made anew for each sort.
fn run_trials<F: FnMut(&mut Trials) -> anyhow::Result<()>>(
    rt: &HostRuntime,
    name: &str,
    seed: u32,
    mut one_trial: F,
) -> anyhow::Result<()>
    requires { F.IsAlwaysCallable one_trial }
{
    let mut trials = Trials::new(rt.alloc(), seed);
    for _ in 0..TRIALS {
        one_trial(&mut trials)?;
    }
    let Tally {
        compared,
        agreed,
        replaced,
        damaged,
    } = trials.tally;
    println!(rt;
        "{name}: {compared} compared, {agreed} agreed; {replaced} replaced, {damaged} damaged tables refused"
    )?;
    Ok(())
}

/// Draws exchanges of stored systems of two shapes.
fn stored_trials<L: Likeness + Copy>(
    rt: &HostRuntime,
    name: &str,
    old: Shape,
    new: Shape,
    likeness: L,
) -> anyhow::Result<()> {
    run_trials(rt, name, 1, |trials| {
        let old_words = trials.draw(old)?;
        let new_words = trials.draw(new)?;
        trials.compare(
            &Stored::new(&old_words),
            &Stored::new(&new_words),
            &likeness,
        )
    })
}

/// Draws a system and a copy of it in which at most one next state is another.
fn copies(rt: &HostRuntime, name: &str, shape: Shape) -> anyhow::Result<()> {
    run_trials(rt, name, 2, |trials| {
        let old_words = trials.draw(shape)?;
        let new_words = trials.near_copy(&old_words, shape)?;
        trials.compare(&Stored::new(&old_words), &Stored::new(&new_words), &Exact)
    })
}

/// Draws two parts, and exchanges their joint for one in which the second part is a near copy.
fn joints(rt: &HostRuntime, name: &str, shape: Shape) -> anyhow::Result<()> {
    run_trials(rt, name, 3, |trials| {
        let first_words = trials.draw(shape)?;
        let old_words = trials.draw(shape)?;
        let new_words = trials.near_copy(&old_words, shape)?;
        let first = Stored::new(&first_words);
        trials.compare(
            &Joint::new(first, Stored::new(&old_words)),
            &Joint::new(first, Stored::new(&new_words)),
            &Exact,
        )
    })
}

/// Exchanges a system for a code list over a near copy of it, which shows one reading as another.
fn code_lists(rt: &HostRuntime, name: &str, shape: Shape) -> anyhow::Result<()> {
    run_trials(rt, name, 4, |trials| {
        let old_words = trials.draw(shape)?;
        let new_words = trials.near_copy(&old_words, shape)?;
        let mut coded = CodeList::new(Stored::new(&new_words), 0, 3);
        ensure!(coded.add(2, 1).is_ok(), "the code list is full");
        trials.compare(&Stored::new(&old_words), &coded, &Exact)
    })
}

/// Drawn stored systems, compared exactly.
fn exact_trials(rt: &HostRuntime) -> anyhow::Result<()> {
    let tiny = Shape { states: 1, ..SMALL };
    let one_reading = Shape {
        readings: 1,
        ..SMALL
    };
    let two_channels = Shape {
        channels: 2,
        ..SMALL
    };
    let many_moves = Shape {
        states: 3,
        controller: 16,
        environment: 16,
        ..SMALL
    };
    stored_trials(rt, "small systems", SMALL, SMALL, Exact)?;
    stored_trials(rt, "no unlike pair", one_reading, one_reading, Exact)?;
    stored_trials(
        rt,
        "all pairs unlike",
        SMALL,
        Shape { first: 7, ..SMALL },
        Exact,
    )?;
    stored_trials(rt, "a single state against four", tiny, SMALL, Exact)?;
    stored_trials(rt, "16 by 16 moves", many_moves, many_moves, Exact)?;
    stored_trials(rt, "two channels", two_channels, two_channels, Exact)
}

/// The other likenesses.
fn other_likenesses(rt: &HostRuntime) -> anyhow::Result<()> {
    let mut within = Within::new();
    ensure!(within.set(0, 1).is_ok(), "the tolerance is refused");
    let many_readings = Shape {
        readings: 4,
        ..SMALL
    };
    let heights = Shape {
        readings: 60,
        ..SMALL
    };
    stored_trials(rt, "within 1", many_readings, many_readings, within)?;
    stored_trials(rt, "sea states", heights, heights, SeaState::on(0))
}

fn main(rt: HostRuntime) -> anyhow::Result<()> {
    exact_trials(&rt)?;
    other_likenesses(&rt)?;
    copies(&rt, "near copies", SMALL)?;
    copies(
        &rt,
        "near copies of six states",
        Shape { states: 6, ..SMALL },
    )?;
    joints(
        &rt,
        "joints",
        Shape {
            states: 3,
            controller: 2,
            environment: 2,
            ..SMALL
        },
    )?;
    code_lists(
        &rt,
        "code lists",
        Shape {
            readings: 3,
            ..SMALL
        },
    )
}
