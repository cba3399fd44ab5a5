// Frames to writers that fail, take one byte at a time, or take none.

use crate::devices::{Ends, Narrow};
use crate::worked::PRE_JOIN;
use bytes::Bytes;
use rapid_transport::{Counted, Metered, TransportError, send};
use std::alloc::{AllocError, Global};
use std::process::Abort;
use std::test::Fail;

/// What sending the worked frame to such a writer answers, and how many bytes are written. Then
/// whether they are a beginning of the frame, and how many calls failed.
fn sent(
    alloc: Global,
    step: usize,
    calls: usize,
    ends: Ends,
) -> Result<(Result<(), TransportError>, usize, bool, u64), AllocError> {
    let frame = Bytes::copy_from_slice(alloc, &PRE_JOIN)?;
    let written = Vec::new(alloc);
    let mut writer = Metered::new(Narrow {
        written,
        step,
        calls,
        ends,
    });
    let answer = send(&mut writer, &frame);
    let written = writer.stream().written.as_slice();
    let begins = PRE_JOIN.as_slice().starts_with(written);
    Ok((answer, written.len(), begins, writer.failed_calls()))
}

#[test]
fn a_writer_that_fails_at_each_call(rt: HostRuntime) -> Result<(), Fail> {
    for calls in 0..PRE_JOIN.len() {
        let got = sent(rt.alloc(), 1, calls, Ends::Fails)?;
        assert_eq!(rt;
            got,
            (Err(TransportError::Io), calls, true, 1),
            "at {calls}"
        );
    }
    Ok(())
}

#[test]
fn a_writer_that_takes_none(rt: HostRuntime) -> Result<(), Fail> {
    for calls in 0..PRE_JOIN.len() {
        let got = sent(rt.alloc(), 1, calls, Ends::TakesNone)?;
        assert_eq!(rt;
            got,
            (Err(TransportError::PeerClosed), calls, true, 0),
            "at {calls}"
        );
    }
    Ok(())
}

#[test]
fn a_writer_that_takes_one_byte_a_call(rt: HostRuntime) -> Result<(), Fail> {
    for step in [1, 5, 29, 64] {
        let got = sent(rt.alloc(), step, PRE_JOIN.len(), Ends::Fails)?;
        assert_eq!(rt; got, (Ok(()), PRE_JOIN.len(), true, 0), "at {step}");
    }
    Ok(())
}
