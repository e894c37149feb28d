// Tests of cuts, classes and line ends.
use crate::class::{are_all, cut};
use crate::classes::{Alpha, Blank, Digit, White, hex_value, is_alpha, same_text};
use crate::line_ends::line_end_len;
use std::test::Fail;

#[test]
fn texts_are_cut_by_class(rt: HostRuntime) -> Result<(), Fail> {
    let (digits, rest) = cut(&Digit, b"2024 Jan");
    assert_eq!(rt; digits, b"2024".as_slice());
    assert_eq!(rt; rest, b" Jan".as_slice());
    let (blanks, rest) = cut(&Blank, b" \t\r\n");
    assert_eq!(rt; blanks, b" \t".as_slice());
    assert_eq!(rt; rest, b"\r\n".as_slice());
    let (front, rest) = cut(&White, b" \t\r\n");
    assert_eq!(rt; front, b" \t\r\n".as_slice());
    assert_eq!(rt; rest, b"".as_slice());
    let (front, rest) = cut(&Alpha, b"");
    assert_eq!(rt; front, b"".as_slice());
    assert_eq!(rt; rest, b"".as_slice());
    assert!(rt; are_all(&Alpha, b"azAZ"));
    assert!(rt; !are_all(&Alpha, b"az AZ"));
    assert!(rt; are_all(&Digit, b""));
    Ok(())
}

#[test]
fn octets_have_classes(rt: HostRuntime) -> Result<(), Fail> {
    assert_eq!(rt; hex_value(b'0'), Some(0));
    assert_eq!(rt; hex_value(b'a'), Some(10));
    assert_eq!(rt; hex_value(b'F'), Some(15));
    assert_eq!(rt; hex_value(b'g'), None);
    assert!(rt; !is_alpha(b'@'));
    assert!(rt; !is_alpha(b'['));
    assert!(rt; same_text(b"Subject", b"sUBJECT"));
    assert!(rt; !same_text(b"Subject", b"Subjects"));
    assert!(rt; !same_text(b"[", b"{"));
    Ok(())
}

#[test]
fn lf_and_cr_lf_end_a_line_and_cr_alone_does_not(rt: HostRuntime) -> Result<(), Fail> {
    assert_eq!(rt; line_end_len(b"\n\n"), 1);
    assert_eq!(rt; line_end_len(b"\r\n\n"), 2);
    assert_eq!(rt; line_end_len(b"\r\r\n"), 0);
    assert_eq!(rt; line_end_len(b"\r"), 0);
    assert_eq!(rt; line_end_len(b"a\n"), 0);
    assert_eq!(rt; line_end_len(b""), 0);
    Ok(())
}
