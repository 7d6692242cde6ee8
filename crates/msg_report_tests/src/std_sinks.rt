// A sink over a writer of std: one put is one write.
use crate::equal::expect_eq;
use msg_scenario::{PutFault, Sink, StdSink, put_all};
use std::io;
use std::io::{Error, ErrorKind, Write};
use std::sync::atomic::{AtomicU64, Ordering};

/// Counts its writes. The first fails, and each later one takes all.
#[derive(Drop)]
struct FailsOnce<'a> {
    writes: &'a AtomicU64,
}

impl Write for FailsOnce<'_> {
    fn write(&mut self, buf: &[u8]) -> io::Result<usize> {
        if self.writes.fetch_add(1, Ordering::SeqCst) == 0 {
            return Err(Error::from(ErrorKind::Interrupted));
        }
        Ok(buf.len())
    }

    fn flush(&mut self) -> io::Result<()> {
        Ok(())
    }
}

/// A piece that isn't taken at the first write isn't put again, and a put is one write.
#[test]
fn a_write_that_fails_is_no_second_write(rt: HostRuntime) {
    let rt = &rt;
    let writes = AtomicU64::new(0);
    let mut sink = StdSink::new(FailsOnce { writes: &writes });
    expect_eq(rt, put_all(&mut sink, b"text"), Err(PutFault));
    expect_eq(rt, writes.load(Ordering::SeqCst), 1);
    expect_eq(rt, sink.put(b"text"), Ok(4));
    expect_eq(rt, writes.load(Ordering::SeqCst), 2);
    drop(sink);
}
