//! From the bytes of an input to what is printed for it.
ghost use Rattle.std.specs.Prelude.{◌≡◌, ◌+◌, ◌*◌, ◌≤◌, ◌++◌, [], length, OnOk, vec_len, vec_capacity};
ghost use Rattle.arena.specs.Written.{all_standing};
ghost use Rattle.files.specs.SystemFile.{described, file_words};
ghost use Rattle.systems.specs.Layout.{Holds};
ghost use Rattle.report.specs.Answer.{UnlessFault};
ghost use Rattle.report.specs.Input.{IsRead, strikes};
ghost use Rattle.report.specs.Lines.{outcome_lines, proposal_lines};
ghost use Rattle.report.specs.Room.{lines_behind, longest_line, most_strikes};
ghost use Rattle.report.specs.Output.{Tells, answered, fault_of, opening_fault, output};

use crate::fault::{InputFault, InputReason};
use crate::input::{Input, read_input};
use crate::lines::{Line, answer_line, fault_line, standing_line, swept_line, verdict_line};
use crate::list::read_strikes;
use crate::memory::{Memory, Work};
use arena::Exchange;
use docket::{DecideError, Docket, Grant, Outcome, Refusal, Strike};
use files::SystemFile;
use systems::Stored;

/// Lays out the system of a file in front of words that suffice.
fn lay_out_in_front(file: &SystemFile<'_>, words: &mut [u16])
    requires { file_words file.now.bytes.now file.now.place ≤ length words.old }
    ensures { Holds (described file.now.bytes.now file.now.place) words.new }
{
    let Ok(_) = file.lay_out(words, 0) else {
        unreachable()
    };
}

/// The same in the words of a list.
// By itself, as `clear`: a proof about `decide` then knows the items of the list by a short term.
fn lay_out(file: &SystemFile<'_>, words: &mut Vec<u16>)
    requires { file_words file.now.bytes.now file.now.place ≤ vec_len words.old }
    ensures held { Holds (described file.now.bytes.now file.now.place) words.new.items }
    ensures len { vec_len words.new ≡ vec_len words.old }
{
    lay_out_in_front(file, words);
}

/// Makes every entry of the table that of a pair that stands.
fn clear(table: &mut Vec<u32>)
    ensures entries { table.new.items ≡ all_standing (vec_len table.old) }
    ensures len { vec_len table.new ≡ vec_len table.old }
{
    arena::clear(table);
}

/// Decides what was read of an input.
fn decide(input: &Input<'_>, work: &mut Work) -> Result<Outcome, InputFault>
    requires { IsRead input.now.bytes.now input.now }
    ensures told { UnlessFault (opening_fault input.now.bytes.now) (Tells input.now.bytes.now) result }
    ensures strikes { OnOk result (work.new.strikes.items ≡ strikes input.now.bytes.now) }
    ensures answers { OnOk result (work.new.answers.items ≡ answered input.now.bytes.now) }
    ensures few { OnOk result (vec_len work.new.strikes ≤ most_strikes) }
{
    lay_out(&input.old, &mut work.old_words);
    lay_out(&input.new, &mut work.new_words);
    work.strikes.clear();
    read_strikes(input.bytes, input.list_place, &mut work.strikes);
    work.answers.clear();
    clear(&mut work.table);
    let exchange = Exchange {
        old: &Stored {
            words: &work.old_words,
        },
        new: &Stored {
            words: &work.new_words,
        },
        likeness: &input.likeness,
    };
    match Docket::new().decide(&exchange, &mut work.table, &work.strikes, &mut work.answers) {
        Ok(outcome) => Ok(outcome),
        Err(DecideError::Refused(refusal)) => Err(InputFault {
            reason: InputReason::Opening(refusal),
            place: input.list_place,
        }),
        // there is room for every answer
        Err(DecideError::NoMemory) => unreachable!(),
    }
}

/// Reads an input and decides it.
fn read_and_decide(input: &[u8], work: &mut Work) -> Result<Outcome, InputFault>
    ensures told { UnlessFault (fault_of input.now) (Tells input.now) result }
    ensures strikes { OnOk result (work.new.strikes.items ≡ strikes input.now) }
    ensures answers { OnOk result (work.new.answers.items ≡ answered input.now) }
    ensures few { OnOk result (vec_len work.new.strikes ≤ most_strikes) }
{
    let read = read_input(input)?;
    decide(&read, work)
}

/// Appends a line where there is room for the longest.
fn put(lines: &mut Vec<u8>, line: &Line)
    requires { vec_len lines.old + longest_line ≤ vec_capacity lines.old }
    ensures items { lines.new.items ≡ lines.old.items ++ line.now.bytes }
    ensures len { vec_len lines.new ≤ vec_len lines.old + longest_line }
    ensures capacity { vec_capacity lines.old ≤ vec_capacity lines.new }
{
    let Ok(()) = lines.extend_from_slice(line.as_str().as_bytes()) else {
        unreachable()
    };
}

/// Appends a line for each strike, where there is room.
fn put_proposals(lines: &mut Vec<u8>, strikes: &[Strike], answers: &[Result<Grant, Refusal>])
    requires { vec_len lines.old + length strikes.now * longest_line ≤ vec_capacity lines.old }
    ensures items { lines.new.items ≡ lines.old.items ++ proposal_lines strikes.now answers.now }
    ensures len { vec_len lines.new ≤ vec_len lines.old + length strikes.now * longest_line }
    ensures capacity { vec_capacity lines.old ≤ vec_capacity lines.new }
{
    for (strike, answer) in strikes.iter().zip(answers) {
        put(lines, &answer_line(strike, answer));
    }
}

/// Appends the lines of what was decided, where there is room.
fn put_outcome(
    lines: &mut Vec<u8>,
    strikes: &[Strike],
    answers: &[Result<Grant, Refusal>],
    outcome: &Outcome,
)
    requires { vec_len lines.old + (length strikes.now + lines_behind) * longest_line ≤ vec_capacity lines.old }
    ensures items { lines.new.items ≡ lines.old.items ++ outcome_lines strikes.now answers.now outcome.now }
    ensures capacity { vec_capacity lines.old ≤ vec_capacity lines.new }
{
    put_proposals(lines, strikes, answers);
    put(lines, &swept_line(outcome.swept));
    put(lines, &standing_line(outcome.standing));
    put(lines, &verdict_line(outcome.replaces));
}

/// The report on an input.
pub(crate) fn report_in(input: &[u8], work: &mut Work) -> Result<Outcome, InputFault>
    ensures output { work.new.lines.items ≡ output input.now }
    ensures answer { UnlessFault (fault_of input.now) (Tells input.now) result }
{
    let answer = read_and_decide(input, work);
    work.lines.clear();
    match &answer {
        Ok(outcome) => put_outcome(&mut work.lines, &work.strikes, &work.answers, outcome),
        Err(fault) => put(&mut work.lines, &fault_line(fault)),
    }
    answer
}

/// Decides a whole input: reads a tolerance for all channels, the file of the old system, that of the new one and a list of strikes, and makes one decision with the strikes as proposals.
///
/// What is to be printed are the lines that the memory has then. Nothing is decided where any part of the input is refused.
pub fn report(input: &[u8], memory: &mut Memory) -> Result<Outcome, InputFault>
    ensures output { memory.new.work.lines.items ≡ output input.now }
    ensures answer { UnlessFault (fault_of input.now) (Tells input.now) result }
{
    report_in(input, &mut memory.work)
}
