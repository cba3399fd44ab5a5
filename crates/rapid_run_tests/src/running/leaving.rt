// A member that leaves over loopback TCP.

use crate::running::devices::{Cue, Screen};
use rapid_config::Params;
use rapid_endpoint::{Endpoint, ProcessId, Tags};
use rapid_options::NodeOptions;
use rapid_run::{Streams, run_node};
use std::alloc::Global;
use std::net::{Net, TcpListener, TcpStream};
use std::random::RandomSource;
use std::sync::atomic::{AtomicBool, Ordering};
use std::sync::{Mutex, Wait};
use std::test::Fail;
use std::thread::{self, Threads};
use std::time::{Clock, Duration};

/// How often is looked at what the nodes printed, and how long is waited between, in milliseconds.
const LOOKS: u32 = 2_000;

const BETWEEN_LOOKS: u64 = 10;

/// The ports of the member that stays, which founds the cluster, and of the one that leaves.
const STAYS: u16 = 7_491;

const LEAVES: u16 = 7_492;

/// A node: its port, what it printed, whether it is to leave, and whether its input is over.
#[derive(Drop)]
struct Place {
    port: u16,
    printed: Mutex<Vec<u8>>,
    leaves: AtomicBool,
    over: AtomicBool,
}

/// A place at a port.
fn place_at(alloc: Global, port: u16) -> Place {
    Place {
        port,
        printed: Mutex::new(Vec::new(alloc)),
        leaves: AtomicBool::new(false),
        over: AtomicBool::new(false),
    }
}

/// What the node at a port is asked for.
fn options(port: u16, params: Params) -> NodeOptions {
    let [high, low] = port.to_be_bytes();
    let id = [0, 0, 0, 0, 0, 0, 0, 0, 0, 0, 0, 0, 0, 0, high, low];
    NodeOptions {
        listen: Endpoint::new([127, 0, 0, 1], port),
        id: Some(ProcessId::new(id)),
        tags: Tags::none(),
        join: if port == STAYS {
            None
        } else {
            Some(Endpoint::new([127, 0, 0, 1], STAYS))
        },
        params,
        tick_ms: 20,
        probers: 1,
    }
}

/// Runs the node at a place until its input is over.
fn run<R>(rt: &R, alloc: Global, params: Params, place: &Place)
where
    R: Net<Listener = TcpListener, Stream = TcpStream>
        + Threads
        + Wait
        + Clock
        + RandomSource
        + Sync,
{
    let mut reader = Cue {
        rt,
        line: b"leave\n",
        now: &place.leaves,
        over: &place.over,
    };
    let mut writer = Screen {
        rt,
        printed: &place.printed,
    };
    let mut told = Vec::new(alloc);
    let asked = options(place.port, params);
    let streams = Streams {
        reader: &mut reader,
        writer: &mut writer,
        err: &mut told,
    };
    let _ = run_node(rt, alloc, asked, rt, streams);
}

/// Waits until the last that each of both printed ends with this text; whether it does.
fn come_to<R: Wait + Clock>(rt: &R, one: &Place, other: &Place, text: &[u8]) -> bool {
    for _ in 0..LOOKS {
        if one.printed.lock(rt).as_slice().ends_with(text)
            && other.printed.lock(rt).as_slice().ends_with(text)
        {
            return true;
        }
        thread::sleep(rt, Duration::from_millis(BETWEEN_LOOKS));
    }
    false
}

/// What both print that are both in, and once the second has left.
const BOTH: &[u8] = b"height 1 members 127.0.0.1:7491 127.0.0.1:7492\n";

const ONE: &[u8] = b"height 2 members 127.0.0.1:7491\n";

/// The second is to leave once both are in, and both come to the view without it.
fn leave<R: Wait + Clock>(rt: &R, stays: &Place, leaves: &Place) -> Result<(), &'static str> {
    if !come_to(rt, stays, leaves, BOTH) {
        return Err("not both came to the first view");
    }
    leaves.leaves.store(true, Ordering::SeqCst);
    if !come_to(rt, stays, leaves, ONE) {
        return Err("not both came to the view without the second");
    }
    Ok(())
}

/// With two members both have to vote, also the one that leaves.
#[test]
fn one_of_two_leaves(rt: HostRuntime) -> Result<(), Fail> {
    let alloc = rt.alloc();
    let params = Params::new(3, 3, 1)?;
    let stays = place_at(alloc, STAYS);
    let leaves = place_at(alloc, LEAVES);
    let (rt, stays, leaves) = (&rt, &stays, &leaves);
    thread::scope(thread::scope_env(), rt, |scope| {
        let _ = scope.spawn(move || run(rt, alloc, params, stays));
        let _ = scope.spawn(move || run(rt, alloc, params, leaves));
        let left = leave(rt, stays, leaves);
        leaves.over.store(true, Ordering::SeqCst);
        stays.over.store(true, Ordering::SeqCst);
        left
    })?;
    Ok(())
}
