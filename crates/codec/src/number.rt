//! Numbers of 16 bits in groups of seven bits, the least group first; the high bit is set on every byte but the last.
ghost use Rattle.std.specs.Prelude.{◌≡◌, ◌≤◌, length, drop, IfOk, Ok};
ghost use Rattle.codec.specs.Number.{number, number_refusal, value_and_rest, encoded, put_answer, put_in_front, write_refusal, NoneShorter};

/// The least byte with its high bit set, behind which another byte follows; also how many values a group has.
const HIGH_BIT: u8 = 128;

/// What one is worth in the second group.
// A cast, since no `From` goes into a constant.
const SECOND_GROUP: u16 = HIGH_BIT as u16;

/// What one is worth in the third group.
const THIRD_GROUP: u16 = SECOND_GROUP * SECOND_GROUP;

/// The least third group that takes a number above 65,535.
const THIRD_GROUP_END: u8 = 4;

/// Why no number could be read, with the number of that refusal.
#[derive(Clone, Copy, Debug, PartialEq, Eq)]
pub enum NumberFault {
    /// The bytes end inside the number.
    Ends = 15,
    /// The third byte has its high bit set.
    TooLong = 16,
    /// The number is above 65,535.
    TooLarge = 17,
}

impl NumberFault {
    /// The number of the refusal.
    pub fn number(self) -> u8
        ensures { result ≡ number_refusal self }
    {
        // a cast, which gives the numbers above
        self as u8
    }
}

/// Why no number could be written, with the number of that refusal.
#[derive(Clone, Copy, Debug, PartialEq, Eq)]
pub enum WriteFault {
    /// There are fewer bytes than the number takes.
    TooFewBytes = 23,
}

impl WriteFault {
    /// The number of the refusal.
    pub fn number(self) -> u8
        ensures { result ≡ write_refusal self }
    {
        self as u8
    }
}

/// The number at the front of the bytes, and the bytes behind it.
pub fn read_number(bytes: &[u8]) -> Result<(u16, &[u8]), NumberFault>
    ensures { value_and_rest result ≡ number bytes.now }
{
    // by a rule of this project slice patterns take the groups off, one by one
    let [first, rest @ ..] = bytes else {
        return Err(NumberFault::Ends);
    };
    let low = u16::from(*first % HIGH_BIT);
    if *first < HIGH_BIT {
        return Ok((low, rest));
    }
    let [second, rest @ ..] = rest else {
        return Err(NumberFault::Ends);
    };
    let low = low + SECOND_GROUP * u16::from(*second % HIGH_BIT);
    if *second < HIGH_BIT {
        return Ok((low, rest));
    }
    let [third, rest @ ..] = rest else {
        return Err(NumberFault::Ends);
    };
    if *third >= HIGH_BIT {
        return Err(NumberFault::TooLong);
    }
    if *third >= THIRD_GROUP_END {
        return Err(NumberFault::TooLarge);
    }
    Ok((low + THIRD_GROUP * u16::from(*third), rest))
}

/// How many bytes the value takes.
pub fn encoded_len(value: u16) -> usize
    ensures value { result ≡ length (encoded value) }
    ensures bound { result ≤ 3 }
{
    if value < SECOND_GROUP {
        1
    } else if value < THIRD_GROUP {
        2
    } else {
        3
    }
}

/// Writes the value in the fewest bytes at the front of the bytes, and answers how many these are.
pub fn write_number(value: u16, bytes: &mut [u8]) -> Result<usize, WriteFault>
    ensures answer { result ≡ put_answer (encoded value) bytes.old }
    ensures bytes { bytes.new ≡ put_in_front (encoded value) bytes.old }
    ensures reads_back { IfOk result (λ count. number bytes.new ≡ Ok (value, drop count bytes.old)) }
    ensures fewest { IfOk result (λ count. NoneShorter value count) }
{
    // casts of what is below 128: a `TryFrom` would bring an error that never comes
    let low = (value % SECOND_GROUP) as u8;
    let middle = (value / SECOND_GROUP % SECOND_GROUP) as u8;
    let high = (value / THIRD_GROUP) as u8;
    if value < SECOND_GROUP {
        put(&[low], bytes)
    } else if value < THIRD_GROUP {
        put(&[low + HIGH_BIT, middle], bytes)
    } else {
        put(&[low + HIGH_BIT, middle + HIGH_BIT, high], bytes)
    }
}

/// Puts the encoding at the front of the bytes, and answers its length.
fn put(encoding: &[u8], bytes: &mut [u8]) -> Result<usize, WriteFault>
    ensures answer { result ≡ put_answer encoding.now bytes.old }
    ensures bytes { bytes.new ≡ put_in_front encoding.now bytes.old }
{
    let count = encoding.len();
    if bytes.len() < count {
        return Err(WriteFault::TooFewBytes);
    }
    // a test and a range: after a write through what `get_mut` gives, a proof knows no byte any more
    bytes[..count].copy_from_slice(encoding);
    Ok(count)
}
