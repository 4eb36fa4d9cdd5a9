// How lines come in.
use serve::next_line;
use std::io::BufReader;
use std::test::Fail;

// A line with what ends it, one that nothing ends, and then none.
#[test]
fn one_line_after_the_other(rt: HostRuntime) -> Result<(), Fail> {
    let heap = rt.alloc();
    let mut input = BufReader::new(heap, b"nodes\nlist".as_slice())?;
    let mut out = Vec::new(heap);
    let mut line = Vec::new(heap);
    assert!(rt; next_line(&mut input, &mut out, &mut line)?);
    assert_eq!(rt; line.as_slice(), b"nodes\n".as_slice());
    assert!(rt; next_line(&mut input, &mut out, &mut line)?);
    assert_eq!(rt; line.as_slice(), b"list".as_slice());
    assert!(rt; !next_line(&mut input, &mut out, &mut line)?);
    Ok(())
}
