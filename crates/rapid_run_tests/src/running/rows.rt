// What a node prints for its lines, and how it ends.

use crate::running::devices::{Broken, Murmur, Screen};
use rapid_config::Params;
use rapid_endpoint::{Endpoint, ProcessId, Tags};
use rapid_options::NodeOptions;
use rapid_run::{Streams, run_node};
use rapid_service::RunningFault;
use std::alloc::Global;
use std::io::{Read, Write};
use std::net::{Ipv4Addr, Net, SocketAddr, SocketAddrV4, TcpListener, TcpStream};
use std::process::Abort;
use std::random::RandomSource;
use std::sync::atomic::{AtomicBool, Ordering};
use std::sync::{Mutex, Wait};
use std::test::Fail;
use std::thread::{self, Threads};
use std::time::{Clock, Duration};

/// At which port a node runs, and at which its seed does; without a seed it founds a cluster.
#[derive(Clone, Copy)]
pub(crate) struct At {
    pub port: u16,
    pub seed: Option<u16>,
}

/// Runs a node: it founds a cluster, or joins one by its seed.
pub(crate) fn ran<R, I, O, E>(
    rt: &R,
    alloc: Global,
    at: At,
    reader: &mut I,
    writer: &mut O,
    err: &mut E,
) -> Result<(), RunningFault>
where
    R: Net<Listener = TcpListener, Stream = TcpStream>
        + Threads
        + Wait
        + Clock
        + RandomSource
        + Sync,
    I: Read + Send,
    O: Write + Send,
    E: Write + Send,
{
    ran_with(rt, alloc, at, Tags::none(), reader, writer, err)
}

/// Runs a node with these tags: it founds a cluster, or joins one by its seed.
fn ran_with<R, I, O, E>(
    rt: &R,
    alloc: Global,
    at: At,
    tags: Tags,
    reader: &mut I,
    writer: &mut O,
    err: &mut E,
) -> Result<(), RunningFault>
where
    R: Net<Listener = TcpListener, Stream = TcpStream>
        + Threads
        + Wait
        + Clock
        + RandomSource
        + Sync,
    I: Read + Send,
    O: Write + Send,
    E: Write + Send,
{
    let Ok(params) = Params::new(10, 9, 3) else {
        return Err(RunningFault::Halted);
    };
    let id = [0, 0, 0, 0, 0, 0, 0, 0, 0, 0, 0, 0, 0, 0, 0, 1];
    let asked = NodeOptions {
        listen: Endpoint::new([127, 0, 0, 1], at.port),
        id: Some(ProcessId::new(id)),
        tags,
        join: at.seed.map(|port| Endpoint::new([127, 0, 0, 1], port)),
        params,
        tick_ms: 0,
        probers: 1,
    };
    let streams = Streams {
        reader,
        writer,
        err,
    };
    run_node(rt, alloc, asked, rt, streams)
}

#[test]
fn a_founder_prints_its_view(rt: HostRuntime) -> Result<(), Fail> {
    let mut input = b"view\nquit\n".as_slice();
    let mut printed = Vec::new(rt.alloc());
    let mut err = Vec::new(rt.alloc());
    ran(
        &rt,
        rt.alloc(),
        At {
            port: 7_401,
            seed: None,
        },
        &mut input,
        &mut printed,
        &mut err,
    )?;
    assert_eq!(rt;
        printed.as_slice(),
        b"height 0 members 127.0.0.1:7401\nheight 0 members 127.0.0.1:7401\n".as_slice()
    );
    assert!(rt; err.is_empty());
    Ok(())
}

#[test]
fn a_founder_prints_its_tags(rt: HostRuntime) -> Result<(), Fail> {
    let mut input = b"view\nquit\n".as_slice();
    let mut printed = Vec::new(rt.alloc());
    let mut err = Vec::new(rt.alloc());
    ran_with(
        &rt,
        rt.alloc(),
        At {
            port: 7_416,
            seed: None,
        },
        Tags::new(&[b"db", b"web"])?,
        &mut input,
        &mut printed,
        &mut err,
    )?;
    assert_eq!(rt;
        printed.as_slice(),
        b"height 0 members 127.0.0.1:7416[db,web]\nheight 0 members 127.0.0.1:7416[db,web]\n".as_slice()
    );
    assert!(rt; err.is_empty());
    Ok(())
}

#[test]
fn a_founder_observes_nobody(rt: HostRuntime) -> Result<(), Fail> {
    let mut input = b"edges\nquit\n".as_slice();
    let mut printed = Vec::new(rt.alloc());
    let mut err = Vec::new(rt.alloc());
    ran(
        &rt,
        rt.alloc(),
        At {
            port: 7_415,
            seed: None,
        },
        &mut input,
        &mut printed,
        &mut err,
    )?;
    assert_eq!(rt;
        printed.as_slice(),
        b"height 0 members 127.0.0.1:7415\nedges none\n".as_slice()
    );
    Ok(())
}

#[test]
fn a_joiner_has_no_view(rt: HostRuntime) -> Result<(), Fail> {
    let mut input = b"# none yet\nview\ntick 20\nleave\nleave now\ntick 1001\n".as_slice();
    let mut printed = Vec::new(rt.alloc());
    let mut err = Vec::new(rt.alloc());
    ran(
        &rt,
        rt.alloc(),
        At {
            port: 7_402,
            seed: Some(7_403),
        },
        &mut input,
        &mut printed,
        &mut err,
    )?;
    assert_eq!(rt;
        printed.as_slice(),
        b"no view\nrefused BadLine\nrefused BadLine\n".as_slice()
    );
    // its question at the first tick was in vain, as is known at the eleventh
    assert_eq!(rt;
        err.as_slice(),
        b"note: no view after question 1 to 127.0.0.1:7403; last answer: none; see that a member runs there\n".as_slice()
    );
    Ok(())
}

#[test]
fn a_port_that_is_taken(rt: HostRuntime) -> Result<(), Fail> {
    let address = SocketAddrV4::new(Ipv4Addr::new(127, 0, 0, 1), 7_404);
    let _taken = TcpListener::bind(&rt, SocketAddr::V4(address))?;
    let mut input = b"view\n".as_slice();
    let mut printed = Vec::new(rt.alloc());
    let mut err = Vec::new(rt.alloc());
    let ended = ran(
        &rt,
        rt.alloc(),
        At {
            port: 7_404,
            seed: None,
        },
        &mut input,
        &mut printed,
        &mut err,
    );
    assert_eq!(rt; ended, Err(RunningFault::NoPort));
    assert!(rt; printed.is_empty());
    assert_eq!(rt;
        err.as_slice(),
        b"error: the port cannot be bound\n".as_slice()
    );
    Ok(())
}

#[test]
fn an_input_that_fails(rt: HostRuntime) -> Result<(), Fail> {
    let mut printed = Vec::new(rt.alloc());
    let mut err = Vec::new(rt.alloc());
    let ended = ran(
        &rt,
        rt.alloc(),
        At {
            port: 7_405,
            seed: None,
        },
        &mut Broken,
        &mut printed,
        &mut err,
    );
    assert_eq!(rt; ended, Err(RunningFault::Read));
    assert_eq!(rt;
        err.as_slice(),
        b"error: the input could not be read\n".as_slice()
    );
    Ok(())
}

/// What is reported if the output fails.
const UNWRITTEN: &[u8] = b"error: the output could not be written\n";

/// How a node ends whose output fails, and what it reports.
fn unwritten<R>(
    rt: &R,
    alloc: Global,
    port: u16,
    seed: Option<u16>,
) -> (Result<(), RunningFault>, Vec<u8>)
where
    R: Net<Listener = TcpListener, Stream = TcpStream>
        + Threads
        + Wait
        + Clock
        + RandomSource
        + Sync,
{
    let mut input = b"view\n".as_slice();
    let mut err = Vec::new(alloc);
    let ended = ran(
        rt,
        alloc,
        At { port, seed },
        &mut input,
        &mut Broken,
        &mut err,
    );
    (ended, err)
}

#[test]
fn an_output_that_fails(rt: HostRuntime) {
    for (port, seed) in [(7_406, None), (7_407, Some(7_408))] {
        let (ended, err) = unwritten(&rt, rt.alloc(), port, seed);
        assert_eq!(rt; ended, Err(RunningFault::Write), "at {port}");
        assert_eq!(rt; err.as_slice(), UNWRITTEN, "at {port}");
    }
}

/// Waits until the failure of the output is reported, for some seconds at most, and ends the input
/// then. The answer is whether it was reported.
fn is_told<R: Wait + Clock>(rt: &R, told: &Mutex<Vec<u8>>, over: &AtomicBool) -> bool {
    let mut is_told = false;
    for _ in 0..1_000 {
        if told.lock(rt).as_slice() == UNWRITTEN {
            is_told = true;
            break;
        }
        thread::sleep(rt, Duration::from_millis(5));
    }
    over.store(true, Ordering::SeqCst);
    is_told
}

/// Runs a node whose output fails, and whose input is quiet after a line. The answer is whether the
/// fault was reported before the input ended, and how the node ended.
fn quiet<'a, R>(
    rt: &'a R,
    alloc: Global,
    told: &'a Mutex<Vec<u8>>,
) -> (Result<(), RunningFault>, bool)
where
    R: Net<Listener = TcpListener, Stream = TcpStream>
        + Threads
        + Wait
        + Clock
        + RandomSource
        + Sync,
{
    let over = AtomicBool::new(false);
    let mut reader = Murmur {
        rt,
        line: b"view\n",
        over: &over,
    };
    let mut err = Screen { rt, printed: told };
    thread::join(
        rt,
        || ran(
            rt,
            alloc,
            At {
                port: 7_409,
                seed: Some(7_410),
            },
            &mut reader,
            &mut Broken,
            &mut err,
        ),
        || is_told(rt, told, &over),
    )
}

#[test]
fn a_fault_is_told_while_the_input_is_quiet(rt: HostRuntime) {
    let told = Mutex::new(Vec::new(rt.alloc()));
    let (ended, was_told) = quiet(&rt, rt.alloc(), &told);
    assert!(rt; was_told);
    assert_eq!(rt; ended, Err(RunningFault::Write));
    assert_eq!(rt; told.lock(&rt).as_slice(), UNWRITTEN);
}
