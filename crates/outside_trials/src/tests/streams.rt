//! Streams that fail once.

use super::made_up::FailsOnce;
use flux_outside::{Failed, RealSink, Sink};
use std::io::ErrorKind;
use std::test::Fail;

/// A write that fails once is a failure, and isn't tried again; only what a signal interrupted is.
#[test]
fn errors_of_writing(rt: HostRuntime) -> Result<(), Fail> {
    let table = [
        (ErrorKind::Other, Err(Failed)),
        (ErrorKind::BrokenPipe, Err(Failed)),
        (ErrorKind::WouldBlock, Err(Failed)),
        (ErrorKind::Interrupted, Ok(3)),
    ];
    for (kind, wanted) in table {
        let mut sink = RealSink::new(FailsOnce { first: Some(kind) });
        assert_eq!(rt; sink.write(b"abc"), wanted);
        assert_eq!(rt; sink.write(b"abc"), Ok(3));
    }
    Ok(())
}
