use std::fs;
use std::test::Fail;
use udp_io::{FileStore, ReadAllFault, StdSink, read_all, write_all};

#[test]
fn a_file_is_a_text(rt: HostRuntime) -> Result<(), Fail> {
    let alloc = rt.alloc();
    let bytes = vec![in alloc; 7u8; 10_000]?;
    fs::write(&rt, "text", bytes.as_slice())?;
    let mut store = FileStore::new(&rt);
    let text = read_all(alloc, &mut store, "text", 10_000)?;
    assert_eq!(rt; text.as_slice(), bytes.as_slice());
    let absent = read_all(alloc, &mut store, "absent", 10_000);
    assert_eq!(rt; absent.err(), Some(ReadAllFault::ReadFault));
    Ok(())
}

#[test]
fn a_writer_is_a_sink(rt: HostRuntime) -> Result<(), Fail> {
    let mut held = [0u8; 4];
    let mut sink = StdSink::new(&mut held[..]);
    assert!(rt; write_all(&mut sink, b"abc").is_ok());
    // A slice with room for one byte more takes no second one.
    assert!(rt; write_all(&mut sink, b"de").is_err());
    assert_eq!(rt; held, *b"abcd");
    Ok(())
}
