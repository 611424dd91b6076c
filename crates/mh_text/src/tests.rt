use super::*;
use std::test::Fail;

#[test]
fn a_text_and_its_copy_have_the_bytes(rt: HostRuntime) -> Result<(), Fail> {
    for bytes in [b"".as_slice(), b"and.py", &[0, 255]] {
        let text = Text::new(rt.alloc(), bytes)?;
        assert_eq!(rt; text.bytes(), bytes);
        let copy = text.copy(rt.alloc())?;
        assert_eq!(rt; copy.bytes(), bytes);
    }
    Ok(())
}

#[test]
fn codes_have_their_words(rt: HostRuntime) {
    for (code, words) in [
        (Code::L1BadByte, "L1 BadByte"),
        (Code::E10KindClash, "E10 KindClash"),
        (Code::C6ClockRead, "C6 ClockRead"),
        (Code::C11KindClash, "C11 KindClash"),
        (Code::N1NotYet, "N1 NotYet"),
    ] {
        assert_eq!(rt; code.words(), words);
    }
}

#[test]
fn a_cursor_goes_over_bytes_and_lines(rt: HostRuntime) {
    for (at, line, byte, behind) in [
        (0, 1, Some(b'a'), (1, 1)),
        (1, 1, Some(b'\n'), (2, 2)),
        (2, 2, Some(b'\r'), (3, 2)),
        (3, 2, Some(b'\n'), (4, 3)),
        (4, 3, Some(b'b'), (5, 3)),
        (5, 3, None, (5, 3)),
    ] {
        assert!(rt; at <= 5 && line <= 1 + at);
        let mut cursor = Cursor {
            src: b"a\n\r\nb",
            at,
            line,
        };
        assert_eq!(rt; cursor.bump(), byte);
        assert_eq!(rt; (cursor.at, cursor.line), behind);
    }
}

#[test]
fn numbers_have_their_digits(rt: HostRuntime) -> Result<(), Fail> {
    for (number, text) in [
        (0, b"x = 0".as_slice()),
        (-1, b"x = -1"),
        (i128::MAX, b"x = 170141183460469231731687303715884105727"),
        (i128::MIN, b"x = -170141183460469231731687303715884105728"),
    ] {
        let mut out = Vec::from_slice(rt.alloc(), b"x = ")?;
        put_number(&mut out, number)?;
        assert_eq!(rt; out.as_slice(), text);
    }
    Ok(())
}

const SHIFTS: Table = Table {
    rows: &[
        Row {
            spelling: b"<",
            tag: 7,
            level: 4,
        },
        Row {
            spelling: b"<<",
            tag: 5,
            level: 8,
        },
        Row {
            spelling: b"",
            tag: 3,
            level: 0,
        },
    ],
};

#[test]
fn a_table_finds_whole_spellings(rt: HostRuntime) {
    for (text, tag) in [
        (b"<".as_slice(), Some(7)),
        (b"<<", Some(5)),
        (b"", Some(3)),
        (b"<<<", None),
        (b">", None),
    ] {
        assert_eq!(rt; SHIFTS.lookup(text).map(|row| row.tag), tag);
    }
}
