//! The lines that are printed, each with the end of the line.
ghost use Rattle.std.specs.Prelude.{◌≡◌, ◌+◌, ◌≤◌, ◌++◌, length};
ghost use Rattle.arrayvec.specs.ArrayString.{array_string_len};
ghost use Rattle.report.specs.Lines.{answer_line, count_line, fault_line, no_memory_line, pair_line, standing_line, swept_line, verdict_line};
ghost use Rattle.report.specs.Room.{longest_line};

use crate::fault::InputFault;
use arrayvec::ArrayString;
use docket::{Grant, Refusal, Strike};
use itoa::{Buffer, Integer};

/// The most bytes of a line: that of a fault at a place of 20 digits.
pub const LONGEST_LINE: usize = 34;

/// The bytes of a line, in memory of its own that has room for any.
pub type Line = ArrayString<LONGEST_LINE>;

/// Appends the number's decimal digits.
fn push_number<I: Integer>(line: &mut Line, n: I)
    requires { array_string_len line.old + I.MAX_STR_LEN ≤ longest_line }
    ensures bytes { line.new.bytes ≡ line.old.bytes ++ I.text n }
    ensures len { array_string_len line.new ≤ array_string_len line.old + I.MAX_STR_LEN }
{
    let mut digits = Buffer::new();
    line.push_str(digits.format(n));
}

/// The line of a refused input.
pub fn fault_line(fault: &InputFault) -> Line
    ensures { result.bytes ≡ fault_line fault.now }
{
    let mut line = Line::new();
    line.push_str("fault ");
    push_number(&mut line, fault.reason.number());
    line.push_str(" at ");
    push_number(&mut line, fault.place);
    line.push_str("\n");
    line
}

/// A name, a number and a pair.
fn pair_line(name: &str, number: u32, pair: (u16, u16)) -> Line
    requires { length name.now ≤ 8 }
    ensures { result.bytes ≡ pair_line name.now number pair }
{
    let (old_state, new_state) = pair;
    let mut line = Line::new();
    line.push_str(name);
    push_number(&mut line, number);
    line.push_str(" ");
    push_number(&mut line, old_state);
    line.push_str(" ");
    push_number(&mut line, new_state);
    line.push_str("\n");
    line
}

/// The line of a proposed strike and the answer to it.
pub fn answer_line(strike: &Strike, answer: &Result<Grant, Refusal>) -> Line
    ensures { result.bytes ≡ answer_line strike.now.pair answer.now }
{
    match answer {
        Ok(Grant::Struck(number)) => pair_line("strike ", *number, strike.pair),
        // a strike is answered by its number or refused
        Ok(_) => Line::new(),
        Err(refusal) => pair_line("refused ", u32::from(refusal.number()), strike.pair),
    }
}

/// A name and a number.
fn count_line(name: &str, n: u32) -> Line
    requires { length name.now ≤ 9 }
    ensures { result.bytes ≡ count_line name.now n }
{
    let mut line = Line::new();
    line.push_str(name);
    push_number(&mut line, n);
    line.push_str("\n");
    line
}

/// The line of how many strikes the sweeps made.
pub fn swept_line(strikes: u32) -> Line
    ensures { result.bytes ≡ swept_line strikes }
{
    count_line("swept ", strikes)
}

/// The line of how many pairs stand in the end.
pub fn standing_line(pairs: u32) -> Line
    ensures { result.bytes ≡ standing_line pairs }
{
    count_line("standing ", pairs)
}

/// The last line: whether the new system replaces the old.
pub fn verdict_line(replaces: bool) -> Line
    ensures { result.bytes ≡ verdict_line replaces }
{
    let mut line = Line::new();
    line.push_str(if replaces { "replaces\n" } else { "differs\n" });
    line
}

/// The line that stands for all others where there is no memory.
pub fn no_memory_line() -> Line
    ensures { result.bytes ≡ no_memory_line }
{
    let mut line = Line::new();
    line.push_str("no memory\n");
    line
}
