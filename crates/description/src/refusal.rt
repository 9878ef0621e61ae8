//! The line of a system file that is refused, with the end of the line.
ghost use Rattle.std.specs.Prelude.{◌≡◌, ◌+◌, ◌≤◌, ◌++◌};
ghost use Rattle.arrayvec.specs.ArrayString.{array_string_len};
ghost use Rattle.description.specs.Refusal.{file_fault_line};

use arrayvec::ArrayString;
use files::ReadFault;
use itoa::{Buffer, Integer};

/// The most bytes of the line: that of a fault with a number of 3 digits, at a place of 20, in a state of 5.
pub const LONGEST_FAULT_LINE: usize = 54;

/// The bytes of the line, in memory of its own that has room for any.
pub type FaultLine = ArrayString<LONGEST_FAULT_LINE>;

/// Appends the number's decimal digits.
fn push_number<I: Integer>(line: &mut FaultLine, n: I)
    requires { array_string_len line.old + I.MAX_STR_LEN ≤ 54 }
    ensures bytes { line.new.bytes ≡ line.old.bytes ++ I.text n }
    ensures len { array_string_len line.new ≤ array_string_len line.old + I.MAX_STR_LEN }
{
    let mut digits = Buffer::new();
    line.push_str(digits.format(n));
}

/// The line of a refused file.
pub fn file_fault_line(fault: &ReadFault) -> FaultLine
    ensures { result.bytes ≡ file_fault_line fault.now }
{
    let mut line = FaultLine::new();
    line.push_str("fault ");
    push_number(&mut line, fault.reason.number());
    line.push_str(" at byte ");
    push_number(&mut line, fault.place);
    line.push_str(" in state ");
    push_number(&mut line, fault.state);
    line.push_str("\n");
    line
}
