// Sources themselves: in memory, and a reader of the system.
use byte_source::{ByteSource, MemSource, ReadFailed, StdSource};
use std::io::{self, Write};
use std::test::Fail;

#[test]
fn a_source_gives_its_pieces(rt: HostRuntime) -> Result<(), Fail> {
    let text = Vec::from_slice(rt.alloc(), b"abcdefgh")?;
    let sizes = Vec::from_slice(rt.alloc(), &[3, 1, 0])?;
    let fails = Vec::from_slice(rt.alloc(), &[3])?;
    let mut source = MemSource::new(text, sizes, fails);
    let mut into = [0u8; 4];
    assert_eq!(rt; source.read(&mut into), Ok(3));
    assert!(rt; into[..3] == b"abc"[..]);
    assert_eq!(rt; source.read(&mut into), Ok(1));
    assert_eq!(rt; source.read(&mut into), Err(ReadFailed));
    assert_eq!(rt; source.read(&mut into), Ok(4));
    assert!(rt; into == *b"efgh");
    assert_eq!(rt; source.read(&mut into), Ok(0));
    Ok(())
}

#[test]
fn a_pipe_is_a_source(rt: HostRuntime) -> Result<(), Fail> {
    let (reader, mut writer) = io::pipe(&rt)?;
    let mut source = StdSource::new(reader);
    let mut into = [0u8; 16];
    writer.write_all(b"one\n")?;
    assert_eq!(rt; source.read(&mut into), Ok(4));
    writer.write_all(b"second\n")?;
    assert_eq!(rt; source.read(&mut into), Ok(7));
    assert!(rt; into[..7] == b"second\n"[..]);
    drop(writer);
    assert_eq!(rt; source.read(&mut into), Ok(0));
    Ok(())
}
