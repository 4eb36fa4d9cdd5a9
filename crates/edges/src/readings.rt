// Which lines are read, which are refused.
use lines::{Command, Line, Refusal};
use std::test::Fail;

// What a line says, at place 7.
fn read(line: &[u8]) -> Result<Line, Refusal> {
    lines::read(line, 7)
}

// A line that cannot be read is refused with its place.
const UNREAD: Result<Line, Refusal> = Err(Refusal::Line { line: 7 });

const BLANK: Result<Line, Refusal> = Ok(Line::Blank);

// A line `look ADDRESS`.
fn look(address: u32) -> Result<Line, Refusal> {
    Ok(Line::Command(Command::Basic(text::Command::Look { address })))
}

#[test]
fn parts_of_an_address(rt: HostRuntime) {
    assert_eq!(rt; read(b"look 255.255.255.255"), look(0xffff_ffff));
    assert_eq!(rt; read(b"look 1.2.3.4"), look(0x0102_0304));
    assert_eq!(rt; read(b"look 001.002.003.004"), look(0x0102_0304));
    assert_eq!(rt; read(b"look 10.1.2.256"), UNREAD);
    assert_eq!(rt; read(b"look 256.0.0.0"), UNREAD);
    assert_eq!(rt; read(b"look 10.1.2.3.4"), UNREAD);
    assert_eq!(rt; read(b"look 10.1.2"), UNREAD);
    assert_eq!(rt; read(b"look 10.1..2"), UNREAD);
    assert_eq!(rt; read(b"look .1.2.3"), UNREAD);
    assert_eq!(rt; read(b"look 10.1.2."), UNREAD);
    assert_eq!(rt; read(b"look 10.1.2.0003"), UNREAD);
    assert_eq!(rt; read(b"look 10.1.2.0x3"), UNREAD);
    assert_eq!(rt; read(b"look 0a.1.2.3"), UNREAD);
}

#[test]
fn signs(rt: HostRuntime) {
    assert_eq!(rt; read(b"look +1.2.3.4"), UNREAD);
    assert_eq!(rt; read(b"look -1.2.3.4"), UNREAD);
    assert_eq!(rt; read(b"put 10.0.0.0 +8 to 1"), UNREAD);
    assert_eq!(rt; read(b"put 10.0.0.0 8 to -1"), UNREAD);
}

#[test]
fn numbers_of_64_bits(rt: HostRuntime) {
    assert_ne!(rt;
        read(b"put 10.0.0.0 18446744073709551615 to 18446744073709551615"),
        UNREAD
    );
    assert_eq!(rt; read(b"put 10.0.0.0 18446744073709551616 to 1"), UNREAD);
    assert_eq!(rt; read(b"put 10.0.0.0 8 to 18446744073709551616"), UNREAD);
    assert_eq!(rt; read(b"table 18446744073709551616"), UNREAD);
    assert_eq!(rt; read(b"table"), UNREAD);
    assert_eq!(rt; read(b"table "), UNREAD);
}

#[test]
fn words_and_spaces(rt: HostRuntime) {
    assert_eq!(rt; read(b"put 10.0.0.0 8 to 1 now"), UNREAD);
    assert_eq!(rt; read(b"put 10.0.0.0 8 via 1"), UNREAD);
    assert_eq!(rt; read(b"put 10.0.0.0  8 to 1"), UNREAD);
    assert_eq!(rt; read(b"look 10.0.0.1 "), UNREAD);
    assert_eq!(rt; read(b" look 10.0.0.1"), UNREAD);
    assert_eq!(rt; read(b"look\t10.0.0.1"), UNREAD);
    assert_eq!(rt; read(b"look 10.0.0.1\t"), UNREAD);
    assert_eq!(rt; read(b"lookup 10.0.0.1"), UNREAD);
    assert_eq!(rt; read(b"LOOK 10.0.0.1"), UNREAD);
    assert_eq!(rt; read(b"list all"), UNREAD);
    assert_eq!(rt; read(b" "), UNREAD);
}

#[test]
fn ends_of_lines(rt: HostRuntime) {
    assert_eq!(rt; read(b"look 0.0.0.1\n"), look(1));
    assert_eq!(rt; read(b"look 0.0.0.1\r\n"), look(1));
    assert_eq!(rt; read(b"look 0.0.0.1\r"), UNREAD);
    assert_eq!(rt; read(b"look 0.0.0.1\n\n"), UNREAD);
    assert_eq!(rt; read(b""), BLANK);
    assert_eq!(rt; read(b"\n"), BLANK);
    assert_eq!(rt; read(b"\r\n"), BLANK);
    assert_eq!(rt; read(b"# look 0.0.0.1"), BLANK);
}

#[test]
fn bytes_that_are_no_text(rt: HostRuntime) {
    assert_eq!(rt; read(&[0xff]), UNREAD);
    assert_eq!(rt; read(&[b'#', 0xc3]), UNREAD);
    assert_eq!(rt; read(b"look 10.0.0.1\0"), UNREAD);
    assert_eq!(rt; read("# für".as_bytes()), BLANK);
}

#[test]
fn a_million_characters(rt: HostRuntime) -> Result<(), Fail> {
    let line = vec![in rt.alloc(); b'1'; 1_000_000]?;
    assert_eq!(rt; read(line.as_slice()), UNREAD);
    let remark = vec![in rt.alloc(); b'#'; 1_000_000]?;
    assert_eq!(rt; read(remark.as_slice()), BLANK);
    Ok(())
}
