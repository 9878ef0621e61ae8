//! The strikes that a list proposes.
ghost use Rattle.std.specs.Prelude.{◌≡◌, ◌+◌, ◌<◌, ◌≤◌, ◌++◌, [], length, vec_len, vec_capacity};
ghost use Rattle.std.specs.List.{cons_option};
ghost use Rattle.std.specs.Result.{result_err};
ghost use Rattle.report.specs.Input.{list_fault, proposed, strike_of};

use crate::fault::InputFault;
use arena::Cause;
use docket::Strike;
use files::{Record, read_record};

/// The strike that a record proposes, if it is none of a maker and no remark.
fn strike_of(item: &Record<'_>) -> Option<Strike>
    ensures { result ≡ strike_of item.now }
{
    match item {
        Record::Sight(pair) => Some(Strike {
            pair: *pair,
            cause: Cause::Sight,
        }),
        Record::Move(pair, controller) => Some(Strike {
            pair: *pair,
            cause: Cause::Move(*controller),
        }),
        Record::Maker(_) | Record::Remark(_) => None,
    }
}

/// Appends the strike, if there is one, where there is room.
fn keep(strikes: &mut Vec<Strike>, strike: Option<Strike>)
    requires { vec_len strikes.old < vec_capacity strikes.old }
    ensures items { strikes.new.items ≡ strikes.old.items ++ cons_option strike [] }
    ensures len { vec_len strikes.new ≤ vec_len strikes.old + 1 }
    ensures capacity { vec_capacity strikes.new ≡ vec_capacity strikes.old }
{
    if let Some(strike) = strike {
        strikes.push_reserved(strike);
    }
}

/// Tests the list that begins at the place, to its end.
pub(crate) fn test_list(input: &[u8], place: usize) -> Result<(), InputFault>
    ensures { result_err result ≡ list_fault input.now place }
{
    let mut next = place;
    while let Some((_item, behind)) = read_record(input, next)? {
        next = behind;
    }
    Ok(())
}

/// Reads the list that begins at the place, to its end or its first fault, and keeps the strikes that it proposes.
pub(crate) fn read_strikes(input: &[u8], place: usize, strikes: &mut Vec<Strike>)
    requires none { strikes.old.items ≡ [] }
    requires empty { vec_len strikes.old ≡ 0 }
    requires room { length input.now ≤ vec_capacity strikes.old }
    ensures strikes { strikes.new.items ≡ proposed input.now place }
    ensures few { vec_len strikes.new ≤ length input.now }
    ensures capacity { vec_capacity strikes.new ≡ vec_capacity strikes.old }
{
    let mut next = place;
    while let Some((item, behind)) = read_record(input, next).unwrap_or(None) {
        keep(strikes, strike_of(&item));
        next = behind;
    }
}
