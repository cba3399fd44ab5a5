// Nodes that find each other over loopback TCP.

use crate::running::devices::{Cue, Screen, Wires, cut};
use rapid_config::Params;
use rapid_endpoint::{Endpoint, ProcessId, Tags};
use rapid_options::NodeOptions;
use rapid_run::{Streams, run_node};
use std::alloc::{AllocError, Global};
use std::net::{Net, TcpListener, TcpStream};
use std::process::Abort;
use std::random::RandomSource;
use std::sync::atomic::{AtomicBool, Ordering};
use std::sync::{Mutex, Wait};
use std::test::Fail;
use std::thread::{self, Threads};
use std::time::{Clock, Duration};

/// How often is looked at what the nodes printed, and how long is waited between, in milliseconds.
const LOOKS: u32 = 2_000;

const BETWEEN_LOOKS: u64 = 10;

/// A tick of the nodes, in milliseconds: long enough that nine nodes keep up in the checked runner of
/// `rt try`.
const TICK: u16 = 50;

/// How long is waited after connections were cut: 15 ticks, in milliseconds.
const AFTER_A_CUT: u64 = 750;

/// A node's place: its port and that of the founder, its tags, what it printed, the connections that
/// it opened, whether it is asked for its edges, and whether its input is over.
#[derive(Drop)]
struct Place {
    port: u16,
    seed: u16,
    tags: Tags,
    params: Params,
    printed: Mutex<Vec<u8>>,
    opened: Mutex<Vec<TcpStream>>,
    asked: AtomicBool,
    over: AtomicBool,
}

/// This many places, at successive ports from that of the founder on.
fn places(alloc: Global, params: Params, seed: u16, count: u16) -> Result<Vec<Place>, AllocError> {
    let mut places = Vec::new(alloc);
    for number in 0..count {
        places.push(Place {
            port: seed.saturating_add(number),
            seed,
            tags: Tags::none(),
            params,
            printed: Mutex::new(Vec::new(alloc)),
            opened: Mutex::new(Vec::new(alloc)),
            asked: AtomicBool::new(false),
            over: AtomicBool::new(false),
        })?;
    }
    Ok(places)
}

/// What a node at this port is asked for: it founds a cluster if it is the seed.
fn options(port: u16, seed: u16, tags: Tags, params: Params) -> NodeOptions {
    let [high, low] = port.to_be_bytes();
    let id = [0, 0, 0, 0, 0, 0, 0, 0, 0, 0, 0, 0, 0, 0, high, low];
    NodeOptions {
        listen: Endpoint::new([127, 0, 0, 1], port),
        id: Some(ProcessId::new(id)),
        tags,
        join: if port == seed {
            None
        } else {
            Some(Endpoint::new([127, 0, 0, 1], seed))
        },
        params,
        tick_ms: TICK,
        // the founder probes in one thread, the next in two, and so on up to four
        probers: 1 + (port.wrapping_sub(seed) % 4) as u8,
    }
}

/// Runs the node at a place until its input is over.
fn run<R>(rt: &R, alloc: Global, place: &Place)
where
    R: Net<Listener = TcpListener, Stream = TcpStream>
        + Threads
        + Wait
        + Clock
        + RandomSource
        + Sync,
{
    let mut reader = Cue {
        rt,
        line: b"edges\n",
        now: &place.asked,
        over: &place.over,
    };
    let mut writer = Screen {
        rt,
        printed: &place.printed,
    };
    let wires = Wires {
        rt,
        opened: &place.opened,
    };
    let asked = options(place.port, place.seed, place.tags, place.params);
    let mut told = Vec::new(alloc);
    let streams = Streams {
        reader: &mut reader,
        writer: &mut writer,
        err: &mut told,
    };
    let _ = run_node(&wires, alloc, asked, rt, streams);
}

/// Whether the last that each node printed ends with this text.
fn all_show<R: Wait>(rt: &R, places: &[Place], text: &[u8]) -> bool {
    for place in places {
        if !place.printed.lock(rt).as_slice().ends_with(text) {
            return false;
        }
    }
    true
}

/// Waits until the last that each node printed ends with this text; whether it does.
fn come_to<R: Wait + Clock>(rt: &R, places: &[Place], text: &[u8]) -> bool {
    for _ in 0..LOOKS {
        if all_show(rt, places, text) {
            return true;
        }
        thread::sleep(rt, Duration::from_millis(BETWEEN_LOOKS));
    }
    false
}

/// Ends the input of these nodes.
fn end(places: &[Place]) {
    for place in places {
        place.over.store(true, Ordering::SeqCst);
    }
}

/// Whether each node has opened a connection since the last cut.
fn all_open<R: Wait>(rt: &R, places: &[Place]) -> bool {
    for place in places {
        if place.opened.lock(rt).is_empty() {
            return false;
        }
    }
    true
}

/// Waits until each node has opened a connection since the last cut; whether they have.
fn come_to_open<R: Wait + Clock>(rt: &R, places: &[Place]) -> bool {
    for _ in 0..LOOKS {
        if all_open(rt, places) {
            return true;
        }
        thread::sleep(rt, Duration::from_millis(BETWEEN_LOOKS));
    }
    false
}

/// Cuts the connections of these nodes, once each has opened one since the last cut; whether they
/// did.
fn cut_all<R: Wait + Clock>(rt: &R, places: &[Place]) -> bool {
    if !come_to_open(rt, places) {
        return false;
    }
    for place in places {
        cut(rt, &place.opened);
    }
    true
}

/// The last line that a node printed.
fn last_line<R: Wait>(rt: &R, alloc: Global, place: &Place) -> Result<Vec<u8>, AllocError> {
    let mut line = Vec::new(alloc);
    let printed = place.printed.lock(rt);
    let lines = printed.as_slice();
    let lines = lines.strip_suffix(b"\n").unwrap_or(lines);
    if let Some(last) = lines.rsplit(|byte| *byte == b'\n').next() {
        line.extend_from_slice(last)?;
    }
    line.push(b'\n')?;
    Ok(line)
}

/// Whether the last line of each of these nodes is that of the first.
fn agree<R: Wait>(rt: &R, alloc: Global, places: &[Place]) -> bool {
    let Some(first) = places.first() else {
        return true;
    };
    match last_line(rt, alloc, first) {
        Ok(line) => all_show(rt, places, line.as_slice()),
        Err(_) => false,
    }
}

/// Cuts all connections, at which no node is expelled.
fn endure_a_cut<R: Wait + Clock>(
    rt: &R,
    stay: &[Place],
    go: &[Place],
    first: &[u8],
) -> Result<(), &'static str> {
    if !cut_all(rt, stay) || !cut_all(rt, go) {
        return Err("a node has opened no connection");
    }
    thread::sleep(rt, Duration::from_millis(AFTER_A_CUT));
    if !all_show(rt, stay, first) || !all_show(rt, go, first) {
        return Err("a node was expelled since connections were cut");
    }
    Ok(())
}

/// Cuts the connections of these nodes five times, and sees that each opens others by itself.
fn keep_cutting<R: Wait + Clock>(rt: &R, places: &[Place]) -> Result<(), &'static str> {
    for _ in 0..5 {
        if !cut_all(rt, places) {
            return Err("a node has not opened a connection anew");
        }
        thread::sleep(rt, Duration::from_millis(AFTER_A_CUT));
    }
    if come_to_open(rt, places) {
        Ok(())
    } else {
        Err("a node has opened no connection after the last cut")
    }
}

/// Ends the nodes that go when all show the first text. Sees that those that stay come to one line
/// that ends with the second text. With cuts, connections are cut before that and while the others
/// see that two are gone.
fn lose<R: Wait + Clock>(
    rt: &R,
    alloc: Global,
    (stay, go): (&[Place], &[Place]),
    (first, second): (&[u8], &[u8]),
    cuts: bool,
) -> Result<(), &'static str> {
    if !come_to(rt, stay, first) || !come_to(rt, go, first) {
        return Err("not all came to the first view");
    }
    if cuts {
        endure_a_cut(rt, stay, go, first)?;
    }
    end(go);
    if cuts {
        keep_cutting(rt, stay)?;
    }
    if !come_to(rt, stay, second) || !agree(rt, alloc, stay) {
        return Err("not all that stay came to the second view");
    }
    Ok(())
}

/// Runs a node at each place, and lets the cluster lose those that go.
fn cluster<R>(
    rt: &R,
    alloc: Global,
    (stay, go): (&[Place], &[Place]),
    texts: (&[u8], &[u8]),
    cuts: bool,
) -> Result<(), &'static str>
where
    R: Net<Listener = TcpListener, Stream = TcpStream>
        + Threads
        + Wait
        + Clock
        + RandomSource
        + Sync,
{
    thread::scope(thread::scope_env(), rt, |scope| {
        for place in stay {
            let _ = scope.spawn(move || run(rt, alloc, place));
        }
        for place in go {
            let _ = scope.spawn(move || run(rt, alloc, place));
        }
        let lost = lose(rt, alloc, (stay, go), texts, cuts);
        end(go);
        end(stay);
        lost
    })
}

/// What two nodes print that are both in.
const BOTH: &[u8] = b"height 1 members 127.0.0.1:7411 127.0.0.1:7412\n";

#[test]
fn two_nodes_come_to_one_view(rt: HostRuntime) -> Result<(), Fail> {
    let places = places(rt.alloc(), Params::new(3, 3, 1)?, 7_411, 2)?;
    let places = places.as_slice().split_at(2.min(places.len()));
    cluster(&rt, rt.alloc(), places, (BOTH, BOTH), false)?;
    Ok(())
}

/// What two nodes print that are both in, and have tags.
const BOTH_TAGGED: &[u8] = b"height 1 members 127.0.0.1:7417[!] 127.0.0.1:7418[db,web]\n";

/// What each of them prints of its edges: it observes the other on each ring.
const EDGES_TAGGED: [&[u8]; 2] = [
    b"edge 0 127.0.0.1:7418[db,web] up\nedge 1 127.0.0.1:7418[db,web] up\nedge 2 127.0.0.1:7418[db,web] up\n",
    b"edge 0 127.0.0.1:7417[!] up\nedge 1 127.0.0.1:7417[!] up\nedge 2 127.0.0.1:7417[!] up\n",
];

/// Two nodes come to one view, and print their edges once they are asked for them.
fn show_edges<R: Wait + Clock>(rt: &R, places: &[Place]) -> Result<(), &'static str> {
    if !come_to(rt, places, BOTH_TAGGED) {
        return Err("not both came to the view");
    }
    for place in places {
        place.asked.store(true, Ordering::SeqCst);
    }
    let (one, other) = places.split_at(1.min(places.len()));
    if !come_to(rt, one, EDGES_TAGGED[0]) || !come_to(rt, other, EDGES_TAGGED[1]) {
        return Err("not both printed their edges to each other");
    }
    Ok(())
}

#[test]
fn two_nodes_show_their_tags_to_each_other(rt: HostRuntime) -> Result<(), Fail> {
    let mut places = places(rt.alloc(), Params::new(3, 3, 1)?, 7_417, 2)?;
    let tags = [Tags::new(&[b"!"])?, Tags::new(&[b"db", b"web"])?];
    for (place, tags) in places.iter_mut().zip(&tags) {
        place.tags = *tags;
    }
    let (rt, alloc, places) = (&rt, rt.alloc(), places.as_slice());
    thread::scope(thread::scope_env(), rt, |scope| {
        for place in places {
            let _ = scope.spawn(move || run(rt, alloc, place));
        }
        let shown = show_edges(rt, places);
        end(places);
        shown
    })?;
    Ok(())
}

/// Runs nine nodes at ports from this on, which lose two.
fn nine<R>(
    rt: &R,
    alloc: Global,
    seed: u16,
    texts: (&[u8], &[u8]),
    cuts: bool,
) -> Result<(), &'static str>
where
    R: Net<Listener = TcpListener, Stream = TcpStream>
        + Threads
        + Wait
        + Clock
        + RandomSource
        + Sync,
{
    let Ok(params) = Params::new(10, 9, 3) else {
        return Err("no parameters");
    };
    let Ok(places) = places(alloc, params, seed, 9) else {
        return Err("out of memory");
    };
    let places = places.as_slice().split_at(7.min(places.len()));
    cluster(rt, alloc, places, texts, cuts)
}

/// Runs nine nodes in this way until they do as they should, three times at most. Healthy nodes are
/// expelled if the machine stands still for forty ticks, which are two seconds here.
fn nine_of_three<R>(
    rt: &R,
    alloc: Global,
    seed: u16,
    texts: (&[u8], &[u8]),
    cuts: bool,
) -> Result<(), &'static str>
where
    R: Net<Listener = TcpListener, Stream = TcpStream>
        + Threads
        + Wait
        + Clock
        + RandomSource
        + Sync,
{
    for _ in 0..2 {
        if nine(rt, alloc, seed, texts, cuts).is_ok() {
            return Ok(());
        }
    }
    nine(rt, alloc, seed, texts, cuts)
}

/// What nine nodes print that are all in.
const NINE: &[u8] =
    b" members 127.0.0.1:7421 127.0.0.1:7422 127.0.0.1:7423 127.0.0.1:7424 127.0.0.1:7425 127.0.0.1:7426 127.0.0.1:7427 127.0.0.1:7428 127.0.0.1:7429\n";

/// What the first seven of them print without the others.
const SEVEN: &[u8] =
    b" members 127.0.0.1:7421 127.0.0.1:7422 127.0.0.1:7423 127.0.0.1:7424 127.0.0.1:7425 127.0.0.1:7426 127.0.0.1:7427\n";

#[test]
fn nine_nodes_lose_two(rt: HostRuntime) -> Result<(), Fail> {
    nine_of_three(&rt, rt.alloc(), 7_421, (NINE, SEVEN), false)?;
    Ok(())
}

/// What nine nodes at other ports print that are all in.
const NINE_CUT: &[u8] =
    b" members 127.0.0.1:7441 127.0.0.1:7442 127.0.0.1:7443 127.0.0.1:7444 127.0.0.1:7445 127.0.0.1:7446 127.0.0.1:7447 127.0.0.1:7448 127.0.0.1:7449\n";

/// What the first seven of them print without the others.
const SEVEN_CUT: &[u8] =
    b" members 127.0.0.1:7441 127.0.0.1:7442 127.0.0.1:7443 127.0.0.1:7444 127.0.0.1:7445 127.0.0.1:7446 127.0.0.1:7447\n";

#[test]
fn nine_nodes_lose_connections_and_two(rt: HostRuntime) -> Result<(), Fail> {
    nine_of_three(&rt, rt.alloc(), 7_441, (NINE_CUT, SEVEN_CUT), true)?;
    Ok(())
}
