//! Strike lists, good and bad.
use crate::{Record, read_record};

/// A record of each kind; the last number of the move has padding.
const EVERY_KIND: &[u8] = b"M\x03AdaV\x01\x02\x80\x00S\x00\x81\x01R\x00";

#[test]
fn each_kind_is_read_to_the_end(rt: HostRuntime) {
    let maker = read_record(EVERY_KIND, 0);
    assert!(rt;
        matches!(maker, Ok(Some((Record::Maker(text), 5))) if text.place == 2 && text.bytes == b"Ada".as_slice())
    );
    let by_move = read_record(EVERY_KIND, 5);
    assert!(rt; matches!(by_move, Ok(Some((Record::Move((1, 2), 0), 10)))));
    let by_sight = read_record(EVERY_KIND, 10);
    assert!(rt; matches!(by_sight, Ok(Some((Record::Sight((0, 129)), 14)))));
    let remark = read_record(EVERY_KIND, 14);
    assert!(rt;
        matches!(remark, Ok(Some((Record::Remark(text), 16))) if text.place == 16 && text.bytes.is_empty())
    );
    assert!(rt; matches!(read_record(EVERY_KIND, 16), Ok(None)));
    assert!(rt; matches!(read_record(&[], 1), Ok(None)));
}

#[test]
fn each_refusal_has_its_number_and_place(rt: HostRuntime) {
    let cases: [(&[u8], u8, usize); 8] = [
        (b"W\x00\x00", 24, 0),
        (b"S\x00", 15, 2),
        (b"S\x80\x80\x80", 16, 1),
        (b"V\x00\x00\x80\x80\x04", 17, 3),
        (b"M", 15, 1),
        (b"M\x80\x80\x80", 16, 1),
        (b"R\x41", 25, 1),
        (b"R\x82\x00a", 15, 1),
    ];
    for (list, number, place) in cases {
        let fault = read_record(list, 0).err();
        assert_eq!(rt;
            fault.map(|fault| (fault.reason.number(), fault.place)),
            Some((number, place))
        );
    }
}

/// How many bytes the remark at the front of the list has.
fn remark_len(list: &[u8]) -> Option<usize> {
    match read_record(list, 0) {
        Ok(Some((Record::Remark(text), _))) => Some(text.bytes.len()),
        _ => None,
    }
}

#[test]
fn a_text_of_64_bytes_is_read(rt: HostRuntime) {
    let mut list = [b'R'; 67];
    list[1] = 64;
    assert_eq!(rt; remark_len(&list), Some(64));
    list[1] = 65;
    assert_eq!(rt; remark_len(&list), None);
}
