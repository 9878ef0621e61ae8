//! Reading a strike list, record by record.
ghost use Rattle.std.specs.Prelude.{◌≡◌, ◌<◌, ◌≤◌, length, IfOk, OnOk, IfSome};
ghost use Rattle.files.specs.Answer.{Unless};
ghost use Rattle.codec.specs.Sequence.{WentOn, value_at, after, skip};
ghost use Rattle.files.specs.StrikeList.{unread, numbers_fault, pair_at, text_at, text_fault, text_end, record_at};

use crate::list_fault::{ListFault, ListReason};
use crate::record::{Record, Text};
use codec::{NumberFault, Reader};

/// The most bytes that a text may have.
const LONGEST_TEXT: u16 = 64;

/// Reads the next number.
// Not one function with `number` of `check`: that one's fault names a state.
#[tactic(auto, using(codec::proofs::Forward::after_forward, codec::proofs::Forward::after_inside), unfolding(codec::specs::Sequence::value_at))]
fn number(reader: &mut Reader) -> Result<u16, ListFault>
    ensures answer { Unless (unread reader.old.bytes reader.old.place) (value_at reader.old.bytes reader.old.place) result }
    ensures place { reader.new ≡ record reader.old { place = after reader.old.bytes reader.old.place } }
    ensures forward { WentOn reader.old reader.new }
{
    let place = reader.place();
    reader.number().map_err(|why| ListFault {
        reason: ListReason::Number(why),
        place,
    })
}

/// Reads a pair of states.
fn pair(reader: &mut Reader) -> Result<(u16, u16), ListFault>
    ensures answer { Unless (numbers_fault reader.old.bytes reader.old.place 2) (pair_at reader.old.bytes reader.old.place) result }
    ensures place { OnOk result (reader.new ≡ record reader.old { place = skip reader.old.bytes 2 reader.old.place }) }
    ensures forward { WentOn reader.old reader.new }
{
    let old = number(reader)?;
    let new = number(reader)?;
    Ok((old, new))
}

/// Reads a text, behind its length.
fn text<'a>(reader: &mut Reader<'a>) -> Result<Text<'a>, ListFault>
    ensures answer { Unless (text_fault reader.old.bytes reader.old.place) (text_at reader.old.bytes reader.old.place) result }
    ensures place { OnOk result (reader.new ≡ record reader.old { place = text_end reader.old.bytes reader.old.place }) }
    ensures forward { WentOn reader.old reader.new }
{
    let place = reader.place();
    let length = number(reader)?;
    if length > LONGEST_TEXT {
        return Err(ListFault {
            reason: ListReason::TextTooLong,
            place,
        });
    }
    let begin = reader.place();
    let bytes = reader.part(usize::from(length)).ok_or(ListFault {
        reason: ListReason::Number(NumberFault::Ends),
        place,
    })?;
    Ok(Text {
        place: begin,
        bytes,
    })
}

/// Reads the record at the place: itself and the place behind it; none where the list has ended there.
pub fn read_record<'a>(
    list: &'a [u8],
    place: usize,
) -> Result<Option<(Record<'a>, usize)>, ListFault>
    ensures answer { result ≡ record_at list.now place }
    ensures forward { IfOk result (λ found. IfSome found (λ read. (place < read.1) × (read.1 ≤ length list.now))) }
{
    let mut reader = Reader::new(list, place);
    let Some(letter) = reader.byte() else {
        return Ok(None);
    };
    // by a rule of this project the letter is a `char`, and the cases are character literals
    let record = match char::from(letter) {
        'S' => Record::Sight(pair(&mut reader)?),
        'V' => Record::Move(pair(&mut reader)?, number(&mut reader)?),
        'M' => Record::Maker(text(&mut reader)?),
        'R' => Record::Remark(text(&mut reader)?),
        _ => {
            return Err(ListFault {
                reason: ListReason::Letter,
                place,
            });
        }
    };
    Ok(Some((record, reader.place())))
}
