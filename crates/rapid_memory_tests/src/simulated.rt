// `sim` out of memory. Up to a line that says that an event was refused for it, or that a node
// halted, it writes what it writes otherwise. After that it writes no view that it does not write
// otherwise. Or it ends with that fault, and has written a beginning.

use crate::text::Fixed;
use rapid_sim::run_sim;
use rapid_text::RunFault;
use std::alloc::Global;
use std::process::Abort;

/// The first line of a text that is not that of another, and an empty one if there is none.
fn first_other<'a>(text: &'a [u8], other: &[u8]) -> &'a [u8] {
    let theirs = other.split(|byte| *byte == b'\n');
    for (mine, their) in text.split(|byte| *byte == b'\n').zip(theirs) {
        if mine != their {
            return mine;
        }
    }
    b""
}

/// The lines that say that memory ran out.
const NAMED: [&[u8]; 4] = [
    b"refused OutOfMemory",
    b"node 1 halted",
    b"node 2 halted",
    b"node 3 halted",
];

/// The lines that may follow: that a node does not run any more, or that a packet was not sent.
const FOLLOWING: [&[u8]; 2] = [b"refused NoSuchNode", b"refused NoSuchPacket"];

/// Whether a line is one of these.
fn is_one_of(line: &[u8], lines: &[&[u8]]) -> bool {
    lines.iter().any(|it| *it == line)
}

/// Whether a text has a line.
fn has_line(text: &[u8], line: &[u8]) -> bool {
    text.split(|byte| *byte == b'\n').any(|it| it == line)
}

/// Whether a line may stand after one that says that memory ran out. It may be another such line or
/// what follows from it, how many packets were sent, or what is written otherwise.
fn is_later(line: &[u8], whole: &[u8]) -> bool {
    is_one_of(line, &NAMED)
        || is_one_of(line, &FOLLOWING)
        || line.starts_with(b"packets ")
        || has_line(whole, line)
}

/// Whether each line of a text may stand there.
fn all_may_stand(text: &[u8], whole: &[u8]) -> bool {
    text.split(|byte| *byte == b'\n')
        .all(|line| is_later(line, whole))
}

/// Checks that `sim` writes the whole for an input, or says by name that memory ran out.
fn assert_named(rt: &impl Abort, alloc: Global, mut input: &[u8], whole: &[u8]) {
    let mut output = [0u8; 512];
    let mut writer = Fixed {
        bytes: &mut output,
        length: 0,
    };
    let ran = run_sim(alloc, &mut input, &mut writer);
    let length = writer.length;
    assert!(rt; length <= output.len());
    let written = &output[..length];
    match ran {
        Ok(0) => assert_eq!(rt; written, whole),
        Ok(_) => {
            assert!(rt; is_one_of(first_other(written, whole), &NAMED));
            assert!(rt; all_may_stand(written, whole));
        }
        Err(fault) => {
            assert_eq!(rt; fault, RunFault::OutOfMemory);
            assert!(rt; whole.starts_with(written));
        }
    }
}

/// Process 2 joins process 1. Its requests come twice.
const JOIN: &[u8] =
    b"params 3 3 1\nfound 1\nstart 2 2 1\ntick 2\nflow\ndeliver 3\ndeliver 4\ndeliver 5\ntick 1\n\
      flow\npackets\n";

const JOIN_VIEWS: &[u8] = b"node 1 height 0 members 1\nnode 1 height 1 members 1 2\n\
      node 2 height 1 members 1 2\npackets 6\n";

#[test]
fn out_of_memory_in_a_simulated_join(rt: HostRuntime) {
    assert_named(&rt, rt.alloc(), JOIN, JOIN_VIEWS);
}

/// The same with tags, after a start with wrong ones.
const TAGGED: &[u8] =
    b"params 3 3 1\nfound 1\nstart 2 2 1 web db\nstart 2 2 1 db web\ntick 2\nflow\ntick 1\nflow\n";

const TAGGED_VIEWS: &[u8] = b"node 1 height 0 members 1\nrefused TagsNotSorted\n\
      node 1 height 1 members 1 2[db,web]\nnode 2 height 1 members 1 2[db,web]\n";

#[test]
fn out_of_memory_in_a_simulated_join_with_tags(rt: HostRuntime) {
    assert_named(&rt, rt.alloc(), TAGGED, TAGGED_VIEWS);
}

/// Three founders of whom one crashes: two votes are no fast quorum, and recovery decides.
const RECOVERY: &[u8] =
    b"params 3 3 1\nfound 1 2 3\ncrash 3\nlose 3\ntick 1\ntick 2\nflow\ntick 1 20\nflow\n";

const RECOVERY_VIEWS: &[u8] =
    b"node 1 height 0 members 1 2 3\nnode 2 height 0 members 1 2 3\nnode 3 height 0 members 1 2 3\n\
      node 2 height 1 members 1 2\nnode 1 height 1 members 1 2\n";

#[test]
fn out_of_memory_in_a_simulated_recovery(rt: HostRuntime) {
    assert_named(&rt, rt.alloc(), RECOVERY, RECOVERY_VIEWS);
}
