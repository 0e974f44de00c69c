// Text read as numbers: what is one, and where a word stands that is none.
use input::{BadWord, Numbers, Scanner, parse_numbers};
use std::alloc::{AllocError, Global};
use std::test::Fail;

// Looks for a word that is no number.
fn scan(text: &str) -> Result<(), BadWord> {
    let mut scanner = Scanner::new();
    for byte in text.bytes() {
        scanner.push(byte)?;
    }
    scanner.finish()?;
    Ok(())
}

// What is said of the first word that is no number.
fn complaint(heap: Global, text: &str) -> Result<String, AllocError> {
    match scan(text) {
        Err(bad) => bad.to_string(heap),
        Ok(()) => String::from_str(heap, "none"),
    }
}

#[test]
fn white_space_separates(rt: HostRuntime) -> Result<(), Fail> {
    let found = parse_numbers(rt.alloc(), b" 1\t22\n\x0b333\x0c\r\n4", 9)?;
    assert_eq!(rt; found.as_slice(), [1, 22, 333, 4].as_slice());
    assert_eq!(rt; parse_numbers(rt.alloc(), b" \n ", 9)?.len(), 0);
    Ok(())
}

#[test]
fn numbers_have_32_bits(rt: HostRuntime) -> Result<(), Fail> {
    let found = parse_numbers(
        rt.alloc(),
        b"0 007 4294967295 000000000000000000000000000000001",
        9,
    )?;
    assert_eq!(rt; found.as_slice(), [0, 7, 4294967295, 1].as_slice());
    assert!(rt; parse_numbers(rt.alloc(), b"4294967296", 9).is_err());
    assert!(rt; parse_numbers(rt.alloc(), b"42949672950", 9).is_err());
    assert!(rt; parse_numbers(rt.alloc(), b"99999999999999999999999999", 9).is_err());
    Ok(())
}

#[test]
fn only_digits(rt: HostRuntime) {
    for text in ["1 -2", "+1", "0x10", "1,2", "1 2/", "1 2:"] {
        assert!(rt; parse_numbers(rt.alloc(), text.as_bytes(), 9).is_err());
    }
}

// A piece may end within a word.
#[test]
fn in_pieces(rt: HostRuntime) -> Result<(), Fail> {
    let mut found = Numbers::new(rt.alloc(), 9);
    found.take(b"12")?;
    found.take(b"")?;
    found.take(b"3 4")?;
    found.take(b" 5")?;
    assert_eq!(rt; found.finish()?.as_slice(), [123, 4, 5].as_slice());
    Ok(())
}

// One more than asked for is kept, so that there are seen to be too many; the rest still has to be numbers.
#[test]
fn too_many(rt: HostRuntime) -> Result<(), Fail> {
    assert_eq!(rt;
        parse_numbers(rt.alloc(), b"1 2 3", 2)?.as_slice(),
        [1, 2, 3].as_slice()
    );
    assert_eq!(rt;
        parse_numbers(rt.alloc(), b"1 2 3 4 5", 2)?.as_slice(),
        [1, 2, 3].as_slice()
    );
    assert!(rt; parse_numbers(rt.alloc(), b"1 2 3 4 five", 2).is_err());
    Ok(())
}

#[test]
fn complaints(rt: HostRuntime) -> Result<(), Fail> {
    let table = [
        (
            "1 2\n 3 x4 y5",
            "line 2, column 4: 'x4' is no decimal number below 4294967296",
        ),
        (
            "12345678901",
            "line 1, column 1: '12345678901' is no decimal number below 4294967296",
        ),
        (
            "abcdefghijklmnopqrstuvwxyz",
            "line 1, column 1: 'abcdefghijklmnopqrstuvwx..' is no decimal number below 4294967296",
        ),
        (
            "\r\n\n1\u{e9}2\t3",
            "line 3, column 1: '1??2' is no decimal number below 4294967296",
        ),
        ("1 2 3", "none"),
    ];
    for (text, said) in table {
        assert_eq!(rt; complaint(rt.alloc(), text)?.as_str(), said);
    }
    Ok(())
}
