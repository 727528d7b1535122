// A stream as a sink: a file that the test writes, and a stream that takes nothing.
use go_base::{Sink, SinkFault, StdSink};
use std::fs;
use std::io::{self, Write};
use std::test::Fail;

#[derive(Drop)]
struct Full;

impl Write for Full {
    fn write(&mut self, _buf: &[u8]) -> io::Result<usize> {
        Ok(0)
    }

    fn flush(&mut self) -> io::Result<()> {
        Ok(())
    }
}

#[test]
fn a_stream_takes_all_bytes_or_fails(rt: HostRuntime) -> Result<(), Fail> {
    let mut sink = StdSink::new(fs::create(&rt, "out")?);
    assert_eq!(rt; sink.put(b"module\t"), Ok(()));
    assert_eq!(rt; sink.put(b"m\n"), Ok(()));
    let text = fs::read_to_string(&rt, "out")?;
    assert_eq!(rt; text.as_str(), "module\tm\n");
    let mut full = StdSink::new(Full);
    assert_eq!(rt; full.put(b"m"), Err(SinkFault::Failed));
    Ok(())
}
