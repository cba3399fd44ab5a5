// The statuses of the program, and what it writes with each.

use rapid_commands::{run_words, without_words};
use std::alloc::Global;
use std::io;
use std::io::{ErrorKind, Read, Write};
use std::net::{Net, TcpListener, TcpStream};
use std::random::RandomSource;
use std::sync::Wait;
use std::thread::Threads;
use std::time::Clock;

/// A reader that gives its bytes once, and then fails.
#[derive(Drop)]
struct Faulty<'a> {
    input: &'a [u8],
}

impl Read for Faulty<'_> {
    fn read(&mut self, buf: &mut [u8]) -> io::Result<usize> {
        if self.input.is_empty() {
            return Err(io::Error::from(ErrorKind::Other));
        }
        let count = self.input.len().min(buf.len());
        let (front, rest) = self.input.split_at(count);
        buf[..count].copy_from_slice(front);
        self.input = rest;
        Ok(count)
    }
}

/// A writer that takes three bytes at its first call, and fails at every other one.
#[derive(Drop)]
struct Narrow {
    written: Vec<u8>,
}

impl Write for Narrow {
    fn write(&mut self, buf: &[u8]) -> io::Result<usize> {
        if !self.written.is_empty() {
            return Err(io::Error::from(ErrorKind::Other));
        }
        let count = buf.len().min(3);
        self.written.extend_from_slice(&buf[..count])?;
        Ok(count)
    }

    fn flush(&mut self) -> io::Result<()> {
        Ok(())
    }
}

/// The status and the two outputs of these words on this input.
fn ran<R>(rt: &R, alloc: Global, words: &[&str], input: &[u8]) -> (u8, Vec<u8>, Vec<u8>)
where
    R: Net<Listener = TcpListener, Stream = TcpStream>
        + Threads
        + Wait
        + Clock
        + RandomSource
        + Sync,
{
    let mut reader = input;
    let mut out = Vec::new(alloc);
    let mut err = Vec::new(alloc);
    let status = run_words(rt, alloc, words, &mut reader, &mut out, &mut err);
    (status, out, err)
}

#[test]
fn answers_with_its_statuses(rt: HostRuntime) {
    let (status, out, err) = ran(
        &rt,
        rt.alloc(),
        &["rapidd", "detect"],
        b"watermarks 4 3 2\nbatch\n",
    );
    assert_eq!(rt; status, 0);
    assert_eq!(rt; out.as_slice(), b"none\n".as_slice());
    assert!(rt; err.is_empty());
    let (status, out, err) = ran(
        &rt,
        rt.alloc(),
        &["rapidd", "sim"],
        b"params 3 3 1\nfound 1\npackets\n",
    );
    assert_eq!(rt; status, 0);
    assert_eq!(rt;
        out.as_slice(),
        b"node 1 height 0 members 1\npackets 0\n".as_slice()
    );
    assert!(rt; err.is_empty());
    for words in [["rapidd", "--help"], ["rapidd", "help"]] {
        let (status, out, err) = ran(&rt, rt.alloc(), &words, b"");
        assert_eq!(rt; status, 0, "at {words:?}");
        assert!(rt; !out.is_empty() && err.is_empty(), "at {words:?}");
    }
    for command in ["detect", "sim", "cluster", "node"] {
        let (status, out, err) = ran(&rt, rt.alloc(), &["rapidd", command, "--help"], b"");
        assert_eq!(rt; status, 0, "at {command:?}");
        assert!(rt; out.len() > 400 && err.is_empty(), "at {command:?}");
    }
    for words in [
        ["rapidd", "clusters"],
        ["rapidd", "--faster"],
        ["rapidd", ""],
        ["rapidd", "Detect"],
    ] {
        let (status, out, err) = ran(&rt, rt.alloc(), &words, b"batch\n");
        assert_eq!(rt; status, 2, "at {words:?}");
        assert!(rt; out.is_empty() && !err.is_empty(), "at {words:?}");
    }
    let (status, out, err) = ran(&rt, rt.alloc(), &["rapidd"], b"batch\n");
    assert_eq!(rt; status, 2);
    assert!(rt; out.is_empty() && !err.is_empty());
    let (status, out, err) = ran(&rt, rt.alloc(), &["rapidd", "detect", "more"], b"batch\n");
    assert_eq!(rt; status, 2);
    assert!(rt; out.is_empty() && !err.is_empty());
}

/// What a cluster of three nodes comes to.
const THREE_NODES: &str = "events 42
node 1 height 1 members 1 2 3
node 2 height 1 members 1 2 3
node 3 height 1 members 1 2 3
agree yes
";

#[test]
fn a_cluster_lets_all_nodes_in(rt: HostRuntime) {
    let (status, out, err) = ran(
        &rt,
        rt.alloc(),
        &["rapidd", "cluster", "--nodes", "3", "--workers", "4"],
        b"",
    );
    assert_eq!(rt; status, 0);
    assert_eq!(rt; out.as_slice(), THREE_NODES.as_bytes());
    assert!(rt; err.is_empty());
}

#[test]
fn a_cluster_has_its_ranges(rt: HostRuntime) {
    for words in [
        ["rapidd", "cluster", "--nodes", "0"],
        ["rapidd", "cluster", "--nodes", "65"],
        ["rapidd", "cluster", "--workers", "0"],
        ["rapidd", "cluster", "--workers", "33"],
        ["rapidd", "cluster", "--turns", "0"],
        ["rapidd", "cluster", "--turns", "10001"],
        ["rapidd", "cluster", "--l", "10"],
    ] {
        let (status, out, err) = ran(&rt, rt.alloc(), &words, b"");
        assert_eq!(rt; status, 2, "at {words:?}");
        assert!(rt; out.is_empty() && !err.is_empty(), "at {words:?}");
    }
}

/// The words of a node at this endpoint, with one more option.
fn node_words<'a>(listen: &'a str, option: &'a str, value: &'a str) -> [&'a str; 6] {
    ["rapidd", "node", "--listen", listen, option, value]
}

#[test]
fn a_node_prints_its_view(rt: HostRuntime) {
    let id = "00000000-0000-0000-0000-000000000001";
    let words = node_words("127.0.0.1:7431", "--id", id);
    let (status, out, err) = ran(&rt, rt.alloc(), &words, b"view\nquit\n");
    assert_eq!(rt; status, 0);
    assert_eq!(rt;
        out.as_slice(),
        b"height 0 members 127.0.0.1:7431\nheight 0 members 127.0.0.1:7431\n".as_slice()
    );
    assert!(rt; err.starts_with(b"note: with --tick-ms 0 "));
}

#[test]
fn a_node_has_its_ranges(rt: HostRuntime) {
    for words in [
        node_words("127.0.0.1:0", "--k", "3"),
        node_words("10.0.0.1:7432", "--k", "10"),
        node_words("127.0.0.1", "--k", "10"),
        node_words("127.0.0.1:7432", "--k", "256"),
        node_words("127.0.0.1:7432", "--l", "10"),
        node_words("127.0.0.1:7432", "--tick-ms", "60001"),
        node_words("127.0.0.1:7432", "--probers", "0"),
        node_words("127.0.0.1:7432", "--probers", "17"),
        node_words("127.0.0.1:7432", "--id", "1"),
        node_words("127.0.0.1:7432", "--join", "127.0.0.1:0"),
    ] {
        let (status, out, err) = ran(&rt, rt.alloc(), &words, b"");
        assert_eq!(rt; status, 2, "at {words:?}");
        assert!(rt; out.is_empty() && !err.is_empty(), "at {words:?}");
    }
}

#[test]
fn a_node_wants_its_port(rt: HostRuntime) -> io::Result<()> {
    let _taken = TcpListener::bind(&rt, "127.0.0.1:7433")?;
    let words = node_words("127.0.0.1:7433", "--tick-ms", "10");
    let (status, out, err) = ran(&rt, rt.alloc(), &words, b"view\n");
    assert_eq!(rt; status, 1);
    assert!(rt; out.is_empty());
    assert!(rt; err.starts_with(b"error: the port cannot be bound\n"));
    Ok(())
}

#[test]
fn answers_1_if_the_input_fails(rt: HostRuntime) {
    let mut reader = Faulty {
        input: b"batch\nbat",
    };
    let mut out = Vec::new(rt.alloc());
    let mut err = Vec::new(rt.alloc());
    let words = ["rapidd", "detect"];
    let status = run_words(
        &rt,
        rt.alloc(),
        words.as_slice(),
        &mut reader,
        &mut out,
        &mut err,
    );
    assert_eq!(rt; status, 1);
    // the line that ended was answered, and nothing stands after it
    assert_eq!(rt; out.as_slice(), b"refused NoWatermarks\n".as_slice());
    assert_eq!(rt;
        err.as_slice(),
        b"error: the input could not be read\n".as_slice()
    );
}

#[test]
fn answers_1_if_the_output_fails(rt: HostRuntime) {
    let detect: &[&str] = &["rapidd", "detect"];
    let help: &[&str] = &["rapidd", "--help"];
    for words in [detect, help] {
        let mut input: &[u8] = b"batch\n";
        let mut narrow = Narrow {
            written: Vec::new(rt.alloc()),
        };
        let mut err = Vec::new(rt.alloc());
        assert_eq!(rt;
            run_words(&rt, rt.alloc(), words, &mut input, &mut narrow, &mut err),
            1,
            "at {words:?}"
        );
        let front: &[u8] = if words.len() == detect.len() && words[1] == "detect" {
            b"ref"
        } else {
            b"Dec"
        };
        assert_eq!(rt; narrow.written.as_slice(), front, "at {words:?}");
    }
}

#[test]
fn answers_if_there_are_no_words(rt: HostRuntime) {
    let mut err = Vec::new(rt.alloc());
    assert_eq!(rt;
        without_words(&io::Error::from(ErrorKind::OutOfMemory), &mut err),
        3
    );
    assert_eq!(rt;
        without_words(&io::Error::from(ErrorKind::InvalidData), &mut err),
        2
    );
}
