//! Inputs that stand one behind the other.
use crate::subject::Subject;

/// An input, and the program that it is for.
#[derive(Clone, Copy)]
pub(crate) struct Frame<'a> {
    pub(crate) subject: Subject,
    /// Whether all that is written is to be told, and not its sum alone.
    pub(crate) is_whole: bool,
    pub(crate) input: &'a [u8],
}

/// The first input, and what stands behind it; none where the bytes do not begin with one.
pub(crate) fn take_frame(bytes: &[u8]) -> Option<(Frame<'_>, &[u8])> {
    let [letter, high, middle, low, rest @ ..] = bytes else {
        return None;
    };
    let length = usize::try_from(u32::from_be_bytes([0, *high, *middle, *low])).ok()?;
    let (input, behind) = rest.split_at_checked(length)?;
    let subject = match letter.to_ascii_uppercase() {
        b'E' => Subject::Exchange,
        b'F' => Subject::File,
        b'I' => Subject::Input,
        _ => return None,
    };
    let frame = Frame {
        subject,
        is_whole: letter.is_ascii_uppercase(),
        input,
    };
    Some((frame, behind))
}
