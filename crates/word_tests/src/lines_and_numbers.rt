//! Texts and what they write, both ways.
use texts::{
    decimal, hex_byte, hex_key, hex_word, next_line, read_decimal, read_hex_byte, read_hex_key,
    read_hex_word, split_line,
};

// A text, a bound, and the number that is read, if one is.
fn decimals() -> &'static [(&'static [u8], u64, Option<u64>)] {
    &[
        (b"0", 0, Some(0)),
        (b"32", 32, Some(32)),
        (b"33", 32, None),
        (b"032", 32, None),
        (b"00", 32, None),
        (b"", 32, None),
        (b"+1", 32, None),
        (b"1 ", 32, None),
        (b"18446744073709551615", u64::MAX, Some(u64::MAX)),
        (b"18446744073709551616", u64::MAX, None),
    ]
}

#[test]
fn decimals_are_read_and_written(rt: HostRuntime) {
    for (text, most, number) in decimals() {
        assert_eq!(rt; read_decimal(text, *most), *number);
        if let Some(number) = number {
            assert_eq!(rt; decimal(*number).as_str().as_bytes(), *text);
        }
    }
}

#[test]
fn hexadecimals_are_read_and_written(rt: HostRuntime) {
    let key = [
        0x00, 0x11, 0x22, 0x33, 0x44, 0x55, 0x66, 0x77, 0x88, 0x99, 0xaa, 0xbb, 0xcc, 0xdd, 0xee,
        0xff,
    ];
    assert_eq!(rt; hex_byte(0x4f).as_str(), "4f");
    assert_eq!(rt; hex_word(0x02fe).as_str(), "02fe");
    assert_eq!(rt; hex_key(&key).as_str(), "00112233445566778899aabbccddeeff");
    assert_eq!(rt; read_hex_byte(b"4f"), Some(0x4f));
    assert_eq!(rt; read_hex_word(b"02fe"), Some(0x02fe));
    assert_eq!(rt;
        read_hex_key(b"00112233445566778899aabbccddeeff"),
        Some(key)
    );
    assert_eq!(rt; read_hex_byte(b"4F"), None);
    assert_eq!(rt; read_hex_byte(b"4"), None);
    assert_eq!(rt; read_hex_word(b"02f"), None);
    assert_eq!(rt; read_hex_word(b"02fg"), None);
    assert_eq!(rt; read_hex_key(b"00112233445566778899aabbccddee"), None);
}

#[test]
fn lines_are_cut(rt: HostRuntime) {
    assert_eq!(rt;
        split_line(b"one\ntwo"),
        Some((b"one".as_slice(), b"two".as_slice()))
    );
    assert_eq!(rt; split_line(b"\n"), Some((b"".as_slice(), b"".as_slice())));
    assert_eq!(rt; split_line(b"two"), None);
    assert_eq!(rt;
        next_line(b"one\ntwo"),
        Some((b"one".as_slice(), b"two".as_slice()))
    );
    assert_eq!(rt;
        next_line(b"two"),
        Some((b"two".as_slice(), b"".as_slice()))
    );
    assert_eq!(rt; next_line(b""), None);
}
