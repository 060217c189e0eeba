// Lines of an input, and fields with their places.
use fields::line_reader::LineReader;
use fields::lines::Lines;
use fields::token::Token;
use std::test::Fail;

#[test]
fn lines_end_with_lf_or_the_end(rt: HostRuntime) {
    assert_eq!(rt; lengths(b""), [None, None, None]);
    assert_eq!(rt; lengths(b"\n"), [Some(0), None, None]);
    assert_eq!(rt; lengths(b"ab"), [Some(2), None, None]);
    assert_eq!(rt; lengths(b"ab\n"), [Some(2), None, None]);
    assert_eq!(rt; lengths(b"ab\n\n"), [Some(2), Some(0), None]);
    assert_eq!(rt; lengths(b"\nab\nc"), [Some(0), Some(2), Some(1)]);
}

// The lengths of the first three lines.
fn lengths(input: &[u8]) -> [Option<usize>; 3] {
    let mut lines = Lines::new(input).map(|line| line.len());
    [lines.next(), lines.next(), lines.next()]
}

#[test]
fn fields_have_places(rt: HostRuntime) -> Result<(), Fail> {
    let mut fields = LineReader::new(b"b\t\t-12");
    let Some(Token::Letter { letter, place, .. }) = fields.next() else {
        return Err(Fail::new("no letter"));
    };
    assert_eq!(rt; letter, 'b');
    assert_eq!(rt; place, 0);
    let Some(Token::Junk { text, place }) = fields.next() else {
        return Err(Fail::new("no junk"));
    };
    assert_eq!(rt; text.len(), 0);
    assert_eq!(rt; place, 2);
    let Some(Token::Number { text, value, place }) = fields.next() else {
        return Err(Fail::new("no number"));
    };
    assert_eq!(rt; value, -12);
    assert_eq!(rt; place, 3);
    assert_eq!(rt; text.len(), 3);
    assert!(rt; fields.ended());
    assert!(rt; fields.next().is_none());
    Ok(())
}
