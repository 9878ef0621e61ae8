use crate::{NumberFault, WriteFault, file_reading, read_number, unfile_reading, write_number};

/// The value and how many bytes are behind it.
fn read(bytes: &[u8]) -> Result<(u16, usize), NumberFault> {
    let (value, rest) = read_number(bytes)?;
    Ok((value, rest.len()))
}

#[test]
fn numbers_are_read(rt: HostRuntime) {
    assert_eq!(rt; read(&[0xFF, 0xFF, 0x03]), Ok((65_535, 0)));
    assert_eq!(rt; read(&[0x80, 0x00, 0x07]), Ok((0, 1)));
    assert_eq!(rt; read(&[0x80, 0x80, 0x00]), Ok((0, 0)));
    assert_eq!(rt; read(&[0x05, 0x80]), Ok((5, 1)));
}

#[test]
fn bad_numbers_are_refused(rt: HostRuntime) {
    assert_eq!(rt; read(&[]), Err(NumberFault::Ends));
    assert_eq!(rt; read(&[0x80, 0x80]), Err(NumberFault::Ends));
    assert_eq!(rt; read(&[0x80, 0x80, 0x80]), Err(NumberFault::TooLong));
    assert_eq!(rt; read(&[0x80, 0x80, 0x04]), Err(NumberFault::TooLarge));
}

#[test]
fn numbers_are_written(rt: HostRuntime) {
    let mut bytes = [0xEE; 4];
    assert_eq!(rt; write_number(127, &mut bytes), Ok(1));
    assert_eq!(rt; bytes, [0x7F, 0xEE, 0xEE, 0xEE]);
    assert_eq!(rt; write_number(128, &mut bytes), Ok(2));
    assert_eq!(rt; bytes, [0x80, 0x01, 0xEE, 0xEE]);
    assert_eq!(rt; write_number(65_535, &mut bytes), Ok(3));
    assert_eq!(rt; bytes, [0xFF, 0xFF, 0x03, 0xEE]);
    assert_eq!(rt;
        write_number(16_384, &mut bytes[0..2]),
        Err(WriteFault::TooFewBytes)
    );
    assert_eq!(rt; bytes, [0xFF, 0xFF, 0x03, 0xEE]);
}

#[test]
fn readings_are_filed(rt: HostRuntime) {
    assert_eq!(rt; file_reading(5), 10);
    assert_eq!(rt; file_reading(-1), 1);
    assert_eq!(rt; file_reading(-32_768), 65_535);
    assert_eq!(rt; unfile_reading(65_534), 32_767);
    assert_eq!(rt; unfile_reading(65_535), -32_768);
}
