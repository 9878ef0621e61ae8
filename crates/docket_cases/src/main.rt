//! Puts dockets, certificate checks and rank calls through many cases, and prints what they answer and leave.
#![tactic(auto)]

use arena::{Arena, Cause, Exchange};
use docket::{Call, Docket, Refusal, Strike, check_certificate};
use likeness::Exact;
use ranking::rank;
use std::mem;
use systems::{Buffer, Joint, System};

/// The strike of a pair by sight.
fn by_sight(old_state: u16, new_state: u16) -> Strike {
    Strike {
        pair: (old_state, new_state),
        cause: Cause::Sight,
    }
}

/// The strike of a pair by a move.
fn by_move(old_state: u16, new_state: u16, controller: u16) -> Strike {
    Strike {
        pair: (old_state, new_state),
        cause: Cause::Move(controller),
    }
}

/// The exchange of an old system for a new one whose readings are compared exactly.
fn exact<'a, S: System, T: System>(old: &'a S, new: &'a T) -> Exchange<'a, S, T, Exact> {
    Exchange {
        old,
        new,
        likeness: &Exact,
    }
}

/// A docket and its table, and where the answers to the calls on them are printed.
#[derive(Drop)]
struct Desk<'a> {
    rt: &'a HostRuntime,
    docket: Docket,
    table: Vec<u32>,
}

impl<'a> Desk<'a> {
    /// A new docket, with a table of so many equal entries.
    fn new(rt: &'a HostRuntime, entry: u32, entries: usize) -> anyhow::Result<Desk<'a>> {
        Ok(Desk {
            rt,
            docket: Docket::new(),
            table: vec![in rt.alloc(); entry; entries]?,
        })
    }

    /// Opens the docket, and prints the answer.
    fn open<A: Arena>(&mut self, name: &str, arena: &A) -> anyhow::Result<()> {
        let answer = self.docket.open(arena, &mut self.table);
        println!(self.rt; "open, {name}: {answer:?}")?;
        Ok(())
    }

    /// Strikes, and prints the answer.
    fn strike<A: Arena>(&mut self, name: &str, arena: &A, strike: Strike) -> anyhow::Result<()> {
        let answer = self.docket.strike(arena, &mut self.table, strike);
        println!(self.rt; "strike, {name}: {answer:?}")?;
        Ok(())
    }

    /// Sweeps, and prints the answer.
    fn sweep<A: Arena>(&mut self, arena: &A, budget: u32) -> anyhow::Result<()> {
        let answer = self.docket.sweep(arena, &mut self.table, budget);
        println!(self.rt; "sweep, budget {budget}: {answer:?}")?;
        Ok(())
    }

    /// Checks whether the table is settled, and prints the answer.
    fn settle<A: Arena>(&self, arena: &A) -> anyhow::Result<()> {
        let answer = self.docket.settle(arena, &self.table);
        println!(self.rt; "settle: {answer:?}")?;
        Ok(())
    }

    /// Makes the calls in a row, and prints their answers.
    fn run<A: Arena>(&mut self, arena: &A, calls: &[Call]) -> anyhow::Result<()> {
        let mut answers = Vec::new(self.rt.alloc());
        self.docket
            .run(arena, &mut self.table, calls, &mut answers)?;
        for answer in &answers {
            println!(self.rt; "{answer:?}")?;
        }
        Ok(())
    }

    /// Prints the docket and the table.
    fn tell(&self) -> anyhow::Result<()> {
        let sizes = self.docket.sizes();
        let count = self.docket.count();
        println!(self.rt; "docket {sizes:?} {count}, table {:?}", self.table)?;
        Ok(())
    }
}

/// Checks the table as a certificate, and prints the answer.
fn tell_certificate<A: Arena>(
    rt: &HostRuntime,
    name: &str,
    arena: &A,
    table: &[u32],
) -> anyhow::Result<()> {
    let answer = check_certificate(arena, table);
    println!(rt; "certificate, {name}: {answer:?}")?;
    Ok(())
}

/// Opens a new docket for two systems with so many entries, and prints the answer.
fn tell_systems<S: System, T: System>(
    rt: &HostRuntime,
    name: &str,
    old: &S,
    new: &T,
    entries: usize,
) -> anyhow::Result<()> {
    Desk::new(rt, 7, entries)?.open(name, &exact(old, new))
}

/// A joint of three buffers without room.
fn three_buffers() -> Joint<Joint<Buffer, Buffer>, Buffer> {
    Joint::new(Joint::new(Buffer::new(0), Buffer::new(0)), Buffer::new(0))
}

/// Openings for systems of the largest size and above.
fn sizes(rt: &HostRuntime) -> anyhow::Result<()> {
    let wide = Joint::new(Buffer::new(255), Buffer::new(0));
    let too_wide = Joint::new(Buffer::new(255), Buffer::new(1));
    tell_systems(rt, "256 states against themselves", &wide, &wide, 65_536)?;
    tell_systems(rt, "256 states, one entry short", &wide, &wide, 65_535)?;
    tell_systems(rt, "512 old states", &too_wide, &wide, 0)?;
    tell_systems(rt, "512 new states", &wide, &too_wide, 0)
}

/// Openings that are refused for channels, moves and tables.
fn misfits(rt: &HostRuntime) -> anyhow::Result<()> {
    let small = Buffer::new(1);
    let two = Joint::new(Buffer::new(1), Buffer::new(0));
    let three = three_buffers();
    let nine = Joint::new(
        Joint::new(three_buffers(), three_buffers()),
        three_buffers(),
    );
    tell_systems(rt, "one channel against two", &small, &two, 0)?;
    tell_systems(rt, "nine channels", &nine, &nine, 0)?;
    tell_systems(rt, "27 moves", &three, &three, 0)?;
    tell_systems(rt, "a table one entry short", &small, &small, 3)?;
    tell_systems(rt, "a table just long enough", &small, &small, 4)
}

/// Calls on an open docket that are refused before a pair is looked at.
fn unfit_calls(rt: &HostRuntime) -> anyhow::Result<()> {
    let old = Buffer::new(2);
    let new = Buffer::new(1);
    let two = Joint::new(Buffer::new(2), Buffer::new(0));
    let single = Buffer::new(0);
    let three = three_buffers();
    let exchange = exact(&old, &new);
    let turned = exact(&new, &old);
    let mut desk = Desk::new(rt, 0, 6)?;
    desk.open("two against one", &exchange)?;
    desk.strike("other sizes", &turned, by_sight(9, 9))?;
    desk.sweep(&turned, 9)?;
    desk.settle(&turned)?;
    desk.strike("other channels", &exact(&two, &new), by_sight(9, 9))?;
    desk.table = vec![in rt.alloc(); 0u32; 5]?;
    desk.strike("short table", &exchange, by_sight(9, 9))?;
    desk.open("one state against one", &exact(&single, &single))?;
    desk.strike("27 moves", &exact(&three, &three), by_sight(9, 9))
}

/// Strikes that are refused with 7 to 11, and some that are granted.
fn strikes<A: Arena>(desk: &mut Desk, arena: &A) -> anyhow::Result<()> {
    desk.strike("no such old state", arena, by_sight(3, 0))?;
    desk.strike("no such new state", arena, by_sight(0, 2))?;
    desk.strike("no such move", arena, by_move(0, 0, 3))?;
    desk.strike("alike", arena, by_sight(0, 0))?;
    desk.strike("not refuted", arena, by_move(1, 1, 1))?;
    desk.strike("unlike", arena, by_sight(2, 1))?;
    desk.strike("struck, and no such move", arena, by_move(2, 1, 99))?;
    desk.strike("unlike as well", arena, by_sight(2, 0))?;
    desk.strike("refuted", arena, by_move(1, 1, 1))
}

/// A docket closed, opened, refused another opening, and opened for other sizes; the table has entries to spare.
fn reopened(rt: &HostRuntime) -> anyhow::Result<()> {
    let old = Buffer::new(2);
    let new = Buffer::new(1);
    let three = three_buffers();
    let exchange = exact(&old, &new);
    let mut desk = Desk::new(rt, 9, 7)?;
    desk.strike("closed", &exchange, by_sight(9, 9))?;
    desk.settle(&exchange)?;
    desk.open("two against one", &exchange)?;
    strikes(&mut desk, &exchange)?;
    desk.tell()?;
    desk.open("27 moves", &exact(&three, &three))?;
    desk.tell()?;
    desk.open("one against one", &exact(&new, &new))?;
    desk.tell()
}

/// A second table used with the same docket: the count fills up while a pair is still loose.
fn foreign_table(rt: &HostRuntime) -> anyhow::Result<()> {
    let buffer = Buffer::new(1);
    let exchange = exact(&buffer, &buffer);
    let mut desk = Desk::new(rt, 0, 4)?;
    desk.open("one against one", &exchange)?;
    desk.sweep(&exchange, 9)?;
    desk.table = vec![in rt.alloc(); 0, 0, 0, u32::MAX]?;
    desk.sweep(&exchange, 9)?;
    desk.tell()?;
    let third = vec![in rt.alloc(); 0; 4]?;
    let foreign = mem::replace(&mut desk.table, third);
    desk.strike("full", &exchange, by_sight(0, 1))?;
    desk.sweep(&exchange, 9)?;
    desk.settle(&exchange)?;
    tell_certificate(rt, "the foreign table", &exchange, &foreign)
}

/// The calls of the worked sweeps.
const WORKED_CALLS: [Call; 8] = [
    Call::Sweep(9),
    Call::Open,
    Call::Settle,
    Call::Sweep(9),
    Call::Sweep(9),
    Call::Sweep(9),
    Call::Sweep(9),
    Call::Settle,
];

/// Tables checked as certificates of the exchange of capacity 2 for capacity 1.
fn certificates<A: Arena>(rt: &HostRuntime, arena: &A) -> anyhow::Result<()> {
    let most = u32::MAX;
    tell_certificate(rt, "the ranks", arena, &[3, 1, 1, 2, 1, 1])?;
    tell_certificate(rt, "equal entries", arena, &[3, 1, 1, 3, 1, 1])?;
    tell_certificate(rt, "a loose pair", arena, &[0, 0, 1, 0, 1, 1])?;
    tell_certificate(rt, "a short table", arena, &[3, 1, 1, 2, 1])?;
    tell_certificate(
        rt,
        "the largest entries",
        arena,
        &[most, 1, 1, most - 1, 1, 1, 0],
    )?;
    tell_certificate(
        rt,
        "the largest entry twice",
        arena,
        &[most, 1, 1, most, 1, 1],
    )
}

/// The worked sweeps of old capacity 2 and new capacity 1, their table as a certificate, and small budgets.
fn sweeps(rt: &HostRuntime) -> anyhow::Result<()> {
    let old = Buffer::new(2);
    let new = Buffer::new(1);
    let exchange = exact(&old, &new);
    let mut desk = Desk::new(rt, 5, 8)?;
    desk.run(&exchange, &WORKED_CALLS)?;
    desk.tell()?;
    tell_certificate(rt, "the swept table", &exchange, &desk.table)?;
    certificates(rt, &exchange)?;
    desk.open("again", &exchange)?;
    desk.sweep(&exchange, 0)?;
    desk.sweep(&exchange, 2)?;
    desk.tell()?;
    desk.settle(&exchange)
}

/// Ranks the pairs, and prints the answer and the table.
fn tell_rank<A: Arena>(rt: &HostRuntime, arena: &A, table: &mut [u32]) -> anyhow::Result<()> {
    let answer = rank(arena, table);
    println!(rt; "rank: {answer:?}, table {table:?}")?;
    Ok(())
}

/// The ranks of both worked exchanges, and a table that is too short for them.
fn ranks(rt: &HostRuntime) -> anyhow::Result<()> {
    let one = Buffer::new(1);
    let two = Buffer::new(2);
    let mut table = [9; 7];
    let mut short = [9; 5];
    tell_rank(rt, &exact(&two, &one), &mut table)?;
    tell_rank(rt, &exact(&one, &two), &mut table)?;
    tell_rank(rt, &exact(&one, &two), &mut short)
}

/// The number of each refusal.
fn numbers(rt: &HostRuntime) -> anyhow::Result<()> {
    let refusals = [
        Refusal::TooManyStates,
        Refusal::NotComparable,
        Refusal::TooManyMoves,
        Refusal::TableTooShort,
        Refusal::Closed,
        Refusal::OtherSizes,
        Refusal::NoSuchState,
        Refusal::AlreadyStruck,
        Refusal::NoSuchMove,
        Refusal::Alike,
        Refusal::NotRefuted,
        Refusal::Full,
    ];
    for refusal in &refusals {
        let number = refusal.number();
        println!(rt; "{number} {refusal:?}")?;
    }
    Ok(())
}

fn main(rt: HostRuntime) -> anyhow::Result<()> {
    numbers(&rt)?;
    sizes(&rt)?;
    misfits(&rt)?;
    unfit_calls(&rt)?;
    reopened(&rt)?;
    foreign_table(&rt)?;
    sweeps(&rt)?;
    ranks(&rt)
}
