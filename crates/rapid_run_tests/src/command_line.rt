// The words of the program, and what each line of words is answered with.

use rapid_commands::run_words;
use std::alloc::Global;
use std::net::{Net, TcpListener, TcpStream};
use std::random::RandomSource;
use std::sync::Wait;
use std::test::Fail;
use std::thread::Threads;
use std::time::Clock;

/// Words after the program's name. Then the status with which they are answered on an empty input,
/// what is written, and what is reported, all of it exactly.
type Row = (&'static str, u8, &'static str, &'static str);

/// What is reported of a node without ticks.
const NO_TICKS: &str =
    "note: with --tick-ms 0 only lines tick this node: it joins nobody, sees no crash, and may hold up its cluster\n";

const ROWS: [Row; 57] = [
    ("--version", 0, "rapidd 0.1.0\n", ""),
    ("-V", 0, "rapidd 0.1.0\n", ""),
    ("detect", 0, "", ""),
    (
        "cluster --nodes 1 --workers 1 --turns 1 --k 1 --h 1 --l 1",
        0,
        "events 1\nnode 1 height 0 members 1\nagree yes\n",
        "",
    ),
    // numbers out of their ranges, or none
    (
        "cluster --nodes 0",
        2,
        "",
        "error: invalid value '0' for '--nodes <NUMBER>': a number from 1 to 64 is wanted, such as 3

For more information, try 'rapidd cluster --help'.
",
    ),
    (
        "cluster --nodes=65",
        2,
        "",
        "error: invalid value '65' for '--nodes <NUMBER>': a number from 1 to 64 is wanted, such as 3

For more information, try 'rapidd cluster --help'.
",
    ),
    (
        "cluster --nodes 3 --workers 33",
        2,
        "",
        "error: invalid value '33' for '--workers <NUMBER>': a number from 1 to 32 is wanted, such as 4

For more information, try 'rapidd cluster --help'.
",
    ),
    (
        "cluster --turns ten",
        2,
        "",
        "error: invalid value 'ten' for '--turns <NUMBER>': a number from 1 to 10000 is wanted, such as 10

For more information, try 'rapidd cluster --help'.
",
    ),
    (
        "cluster --turns",
        2,
        "",
        "error: no value for '--turns <NUMBER>': a number from 1 to 10000 is wanted, such as 10

For more information, try 'rapidd cluster --help'.
",
    ),
    (
        "cluster --turns --nodes 3",
        2,
        "",
        "error: no value for '--turns <NUMBER>': a number from 1 to 10000 is wanted, such as 10

For more information, try 'rapidd cluster --help'.
",
    ),
    (
        "node --listen 127.0.0.1:7441 --tick-ms -1",
        2,
        "",
        "error: invalid value '-1' for '--tick-ms <NUMBER>': a number of milliseconds from 0 to 60000 is wanted, such as 100

For more information, try 'rapidd node --help'.
",
    ),
    (
        "node --listen 127.0.0.1:7441 --tick-ms abc",
        2,
        "",
        "error: invalid value 'abc' for '--tick-ms <NUMBER>': a number of milliseconds from 0 to 60000 is wanted, such as 100

For more information, try 'rapidd node --help'.
",
    ),
    (
        "node --tick-ms 60001 --listen 127.0.0.1:7441",
        2,
        "",
        "error: invalid value '60001' for '--tick-ms <NUMBER>': a number of milliseconds from 0 to 60000 is wanted, such as 100

For more information, try 'rapidd node --help'.
",
    ),
    (
        "node --listen 127.0.0.1:7441 --k 256",
        2,
        "",
        "error: invalid value '256' for '--k <NUMBER>': 1 <= L <= H <= K <= 16 is wanted

For more information, try 'rapidd node --help'.
",
    ),
    (
        "node --listen 127.0.0.1:7441 --k ten",
        2,
        "",
        "error: invalid value 'ten' for '--k <NUMBER>': 1 <= L <= H <= K <= 16 is wanted

For more information, try 'rapidd node --help'.
",
    ),
    (
        "node --listen 127.0.0.1:7441 --probers 0",
        2,
        "",
        "error: invalid value '0' for '--probers <NUMBER>': a number from 1 to 16 is wanted, such as 4

For more information, try 'rapidd node --help'.
",
    ),
    (
        "node --probers=17 --listen 127.0.0.1:7441",
        2,
        "",
        "error: invalid value '17' for '--probers <NUMBER>': a number from 1 to 16 is wanted, such as 4

For more information, try 'rapidd node --help'.
",
    ),
    (
        "node --listen 127.0.0.1:7441 --probers many",
        2,
        "",
        "error: invalid value 'many' for '--probers <NUMBER>': a number from 1 to 16 is wanted, such as 4

For more information, try 'rapidd node --help'.
",
    ),
    (
        "node --listen 127.0.0.1:7441 --probers",
        2,
        "",
        "error: no value for '--probers <NUMBER>': a number from 1 to 16 is wanted, such as 4

For more information, try 'rapidd node --help'.
",
    ),
    // K, H and L out of order
    (
        "cluster --k 3",
        2,
        "",
        "error: invalid values '--k 3', '--h 9' (default), '--l 3' (default): H is above K; 1 <= L <= H <= K <= 16 is wanted

For more information, try 'rapidd cluster --help'.
",
    ),
    (
        "cluster --l 10",
        2,
        "",
        "error: invalid values '--k 10' (default), '--h 9' (default), '--l 10': L is above H; 1 <= L <= H <= K <= 16 is wanted

For more information, try 'rapidd cluster --help'.
",
    ),
    (
        "node --listen 127.0.0.1:7441 --k 17",
        2,
        "",
        "error: invalid values '--k 17', '--h 9' (default), '--l 3' (default): K is above 16; 1 <= L <= H <= K <= 16 is wanted

For more information, try 'rapidd node --help'.
",
    ),
    (
        "node --listen 127.0.0.1:7441 --l 0",
        2,
        "",
        "error: invalid values '--k 10' (default), '--h 9' (default), '--l 0': L is 0; 1 <= L <= H <= K <= 16 is wanted

For more information, try 'rapidd node --help'.
",
    ),
    (
        "node --listen 127.0.0.1:7441 --join 127.0.0.1:7442 --k 3",
        2,
        "",
        "error: invalid values '--k 3', '--h 9' (default), '--l 3' (default): H is above K; 1 <= L <= H <= K <= 16 is wanted. A node that joins takes K, H and L of its cluster: leave them out

For more information, try 'rapidd node --help'.
",
    ),
    // endpoints
    (
        "node",
        2,
        "",
        "error: '--listen <ENDPOINT>' is missing: 127.x.x.x:PORT with a port from 1 to 65535 is wanted, such as 127.0.0.1:7401

For more information, try 'rapidd node --help'.
",
    ),
    (
        "node --listen",
        2,
        "",
        "error: no value for '--listen <ENDPOINT>': 127.x.x.x:PORT with a port from 1 to 65535 is wanted, such as 127.0.0.1:7401

For more information, try 'rapidd node --help'.
",
    ),
    (
        "node --listen 127.0.0.1",
        2,
        "",
        "error: invalid value '127.0.0.1' for '--listen <ENDPOINT>': it has no port; 127.x.x.x:PORT with a port from 1 to 65535 is wanted, such as 127.0.0.1:7401

For more information, try 'rapidd node --help'.
",
    ),
    (
        "node --listen localhost:1",
        2,
        "",
        "error: invalid value 'localhost:1' for '--listen <ENDPOINT>': its host is not four numbers between dots; 127.x.x.x:PORT with a port from 1 to 65535 is wanted, such as 127.0.0.1:7401

For more information, try 'rapidd node --help'.
",
    ),
    (
        "node --listen 127.0.0.256:1",
        2,
        "",
        "error: invalid value '127.0.0.256:1' for '--listen <ENDPOINT>': a part of its host is no number from 0 to 255, or has a needless 0 in front; 127.x.x.x:PORT with a port from 1 to 65535 is wanted, such as 127.0.0.1:7401

For more information, try 'rapidd node --help'.
",
    ),
    (
        "node --listen 127.0.0.1:65536",
        2,
        "",
        "error: invalid value '127.0.0.1:65536' for '--listen <ENDPOINT>': its port is no number from 1 to 65535, or has a needless 0 in front; 127.x.x.x:PORT with a port from 1 to 65535 is wanted, such as 127.0.0.1:7401

For more information, try 'rapidd node --help'.
",
    ),
    (
        "node --listen 127.0.0.1:0",
        2,
        "",
        "error: invalid value '127.0.0.1:0' for '--listen <ENDPOINT>': its port is 0; 127.x.x.x:PORT with a port from 1 to 65535 is wanted, such as 127.0.0.1:7401

For more information, try 'rapidd node --help'.
",
    ),
    (
        "node --listen 127.0.0.1:7441 --join 10.0.0.1:7442",
        2,
        "",
        "error: invalid value '10.0.0.1:7442' for '--join <ENDPOINT>': its host is not 127.x.x.x; 127.x.x.x:PORT with a port from 1 to 65535 is wanted, such as 127.0.0.1:7401

For more information, try 'rapidd node --help'.
",
    ),
    (
        "node --listen 127.0.0.1:7441 --id 1",
        2,
        "",
        "error: invalid value '1' for '--id <UUID>': a UUID is wanted that was never used before, such as 6ba7b810-9dad-41d1-80b4-00c04fd430c8

For more information, try 'rapidd node --help'.
",
    ),
    // tags
    (
        "node --listen 127.0.0.1:7441 --tags",
        2,
        "",
        "error: no value for '--tags <TAGS>': up to 8 ascending words of 1 to 64 bytes are wanted, with commas between them, such as db,zone-a

For more information, try 'rapidd node --help'.
",
    ),
    (
        "node --listen 127.0.0.1:7441 --tags web,db",
        2,
        "",
        "error: invalid value 'web,db' for '--tags <TAGS>': they do not ascend; up to 8 ascending words of 1 to 64 bytes are wanted, with commas between them, such as db,zone-a

For more information, try 'rapidd node --help'.
",
    ),
    (
        "node --listen 127.0.0.1:7441 --tags=1,2,3,4,5,6,7,8,9",
        2,
        "",
        "error: invalid value '1,2,3,4,5,6,7,8,9' for '--tags <TAGS>': there are more than 8; up to 8 ascending words of 1 to 64 bytes are wanted, with commas between them, such as db,zone-a

For more information, try 'rapidd node --help'.
",
    ),
    (
        "node --listen 127.0.0.1:7441 --tags web,db]",
        2,
        "",
        "error: invalid value 'web,db]' for '--tags <TAGS>': one is empty, too long, or has a byte that is not allowed; up to 8 ascending words of 1 to 64 bytes are wanted, with commas between them, such as db,zone-a

For more information, try 'rapidd node --help'.
",
    ),
    (
        "node --listen 127.0.0.1:7441 --tags db,",
        2,
        "",
        "error: invalid value 'db,' for '--tags <TAGS>': one is empty, too long, or has a byte that is not allowed; up to 8 ascending words of 1 to 64 bytes are wanted, with commas between them, such as db,zone-a

For more information, try 'rapidd node --help'.
",
    ),
    (
        "node --listen 127.0.0.1:7441 --tags=",
        2,
        "",
        "error: invalid value '' for '--tags <TAGS>': one is empty, too long, or has a byte that is not allowed; up to 8 ascending words of 1 to 64 bytes are wanted, with commas between them, such as db,zone-a

For more information, try 'rapidd node --help'.
",
    ),
    // 65 bytes, and 64
    (
        "node --listen 127.0.0.1:7441 --tags xxxxxxxxxxxxxxxxxxxxxxxxxxxxxxxxxxxxxxxxxxxxxxxxxxxxxxxxxxxxxxxxx",
        2,
        "",
        "error: invalid value 'xxxxxxxxxxxxxxxxxxxxxxxxxxxxxxxxxxxxxxxxxxxxxxxxxxxxxxxxxxxxxxxxx' for '--tags <TAGS>': one is empty, too long, or has a byte that is not allowed; up to 8 ascending words of 1 to 64 bytes are wanted, with commas between them, such as db,zone-a

For more information, try 'rapidd node --help'.
",
    ),
    (
        "node --listen 127.0.0.1:7441 --tags xxxxxxxxxxxxxxxxxxxxxxxxxxxxxxxxxxxxxxxxxxxxxxxxxxxxxxxxxxxxxxxx",
        0,
        "height 0 members 127.0.0.1:7441[xxxxxxxxxxxxxxxxxxxxxxxxxxxxxxxxxxxxxxxxxxxxxxxxxxxxxxxxxxxxxxxx]\n",
        NO_TICKS,
    ),
    (
        "node --listen 127.0.0.1:7441 --tags db,web",
        0,
        "height 0 members 127.0.0.1:7441[db,web]\n",
        NO_TICKS,
    ),
    (
        "node --listen 127.0.0.1:7441 --tags !",
        0,
        "height 0 members 127.0.0.1:7441[!]\n",
        NO_TICKS,
    ),
    // a value that begins with - stands behind =
    (
        "node --listen 127.0.0.1:7441 --tags=-x",
        0,
        "height 0 members 127.0.0.1:7441[-x]\n",
        NO_TICKS,
    ),
    (
        "node --listen 127.0.0.1:7441 --tags -",
        0,
        "height 0 members 127.0.0.1:7441[-]\n",
        NO_TICKS,
    ),
    (
        "node --listen 127.0.0.1:7441 --tags -x",
        2,
        "",
        "error: invalid value '-x' for '--tags <TAGS>': up to 8 ascending words of 1 to 64 bytes are wanted, with commas between them, such as db,zone-a

For more information, try 'rapidd node --help'.
",
    ),
    (
        "node --listen 127.0.0.1:7441 --id 1 --tags web,db",
        2,
        "",
        "error: invalid value '1' for '--id <UUID>': a UUID is wanted that was never used before, such as 6ba7b810-9dad-41d1-80b4-00c04fd430c8

For more information, try 'rapidd node --help'.
",
    ),
    // faults at the first place are reported first
    (
        "node --listen localhost:1 --join 127.0.0.1 --id 1 --k 3",
        2,
        "",
        "error: invalid values '--k 3', '--h 9' (default), '--l 3' (default): H is above K; 1 <= L <= H <= K <= 16 is wanted. A node that joins takes K, H and L of its cluster: leave them out

For more information, try 'rapidd node --help'.
",
    ),
    (
        "node --listen 127.0.0.1:7441 --join 127.0.0.1 --id 1",
        2,
        "",
        "error: invalid value '127.0.0.1' for '--join <ENDPOINT>': it has no port; 127.x.x.x:PORT with a port from 1 to 65535 is wanted, such as 127.0.0.1:7401

For more information, try 'rapidd node --help'.
",
    ),
    // other faults, as clap reports them
    (
        "cluster --nodes 3 --nodes 4",
        2,
        "",
        "error: the argument '--nodes <NUMBER>' cannot be used multiple times

Usage: rapidd cluster [OPTIONS]

For more information, try '--help'.
",
    ),
    (
        "detect more",
        2,
        "",
        "error: unexpected argument 'more' found

Usage: rapidd detect

For more information, try '--help'.
",
    ),
    (
        "node --listen 127.0.0.1:7441 --faster",
        2,
        "",
        "error: unexpected argument '--faster' found

Usage: rapidd node --listen <ENDPOINT>

For more information, try '--help'.
",
    ),
    (
        "clusters",
        2,
        "",
        "error: unrecognized subcommand 'clusters'

  tip: a similar subcommand exists: 'cluster'

Usage: rapidd <COMMAND>

For more information, try '--help'.
",
    ),
    (
        "sim --tick-ms abc",
        2,
        "",
        "error: unexpected argument '--tick-ms' found

Usage: rapidd sim

For more information, try '--help'.
",
    ),
    // a joiner that is given numbers is told that it does not use them
    (
        "node --listen 127.0.0.1:7441 --join 127.0.0.1:7442 --k 5 --h 4 --l 2 --tick-ms 100",
        0,
        "",
        "note: --k, --h and --l are not used: a node that joins takes K, H and L of its cluster\n",
    ),
    // a node without ticks is told what that costs
    (
        "node --listen 127.0.0.1:7441",
        0,
        "height 0 members 127.0.0.1:7441\n",
        NO_TICKS,
    ),
    (
        "node --listen 127.0.0.1:7441 --join 127.0.0.1:7442 --tick-ms 0",
        0,
        "",
        NO_TICKS,
    ),
];

/// The status and the two outputs of these words, on an empty input.
fn answer<R>(rt: &R, alloc: Global, words: &str) -> Result<(u8, String, String), Fail>
where
    R: Net<Listener = TcpListener, Stream = TcpStream>
        + Threads
        + Wait
        + Clock
        + RandomSource
        + Sync,
{
    let mut all = Vec::new(alloc);
    all.push("rapidd")?;
    for word in words.split(' ') {
        all.push(word)?;
    }
    let mut reader: &[u8] = b"";
    let mut out = Vec::new(alloc);
    let mut err = Vec::new(alloc);
    let status = run_words(rt, alloc, all.as_slice(), &mut reader, &mut out, &mut err);
    Ok((status, String::from_utf8(out)?, String::from_utf8(err)?))
}

#[test]
fn words_are_answered(rt: HostRuntime) -> Result<(), Fail> {
    for (words, status, out, err) in &ROWS {
        let (found, written, told) = answer(&rt, rt.alloc(), words)?;
        assert!(rt; found == *status, "at {words}: {found}");
        assert!(rt; written.as_str() == *out, "at {words}: {written}");
        assert!(rt; told.as_str() == *err, "at {words}: {told}");
    }
    Ok(())
}

/// Words that ask for help, and lines that stand in it.
const HELPS: [(&str, &[&str]); 6] = [
    (
        "--help",
        &[
            "  detect ",
            "  sim ",
            "  cluster ",
            "  node ",
            "--version",
            "Status: 0 at",
        ],
    ),
    (
        "detect --help",
        &[
            "its status stays 0",
            "  BadLine ",
            "  NoWatermarks ",
            "  BadParams ",
            "  TooLate ",
            "  TooMany ",
            "  RingRange ",
            "  EdgeTwice ",
        ],
    ),
    (
        "sim --help",
        &[
            "its status stays 0",
            "  start N PORT SEEDPORT [TAG ..] ",
            "2[db,web]",
            "  BadLine ",
            "  NoParams ",
            "  BadParams ",
            "  TooManyTags ",
            "  BadTag ",
            "  TagsNotSorted ",
            "  IdentifierUsed ",
            "  EndpointBusy ",
            "  NoSuchNode ",
            "  NoSuchPacket ",
            "  NotObserved ",
            "  EventsFull ",
            "  OutOfMemory ",
            "node N halted",
        ],
    ),
    (
        "cluster --help",
        &[
            "1 to 64 [default: 3]",
            "1 to 32 [default: 4]",
            "1 to 10000 [default: 10]",
            "H to 16 [default: 10]",
            "L to K [default: 9]",
            "1 to H [default: 3]",
        ],
    ),
    (
        "node --help",
        &[
            "--listen <ENDPOINT>",
            "required",
            "without it one is drawn",
            "--tags <TAGS>",
            "up to 8 words, ascending",
            "127.0.0.1:7401[db,zone-a]",
            "without it the node founds a cluster",
            "0 to 60000",
            "[default: 0]",
            "1 to 16 [default: 1]",
            "With --tick-ms 0, the default, only the lines tick make it tick",
            "SIGTERM, SIGINT and SIGHUP",
            "H to 16 [default: 10]",
            "L to K [default: 9]",
            "1 to H [default: 3]",
        ],
    ),
    ("help node", &["SIGTERM, SIGINT and SIGHUP"]),
];

#[test]
fn helps_say_what_is_wanted(rt: HostRuntime) -> Result<(), Fail> {
    for (words, lines) in &HELPS {
        let (status, out, err) = answer(&rt, rt.alloc(), words)?;
        assert!(rt; status == 0 && err.is_empty(), "at {words}: {err}");
        for line in *lines {
            assert!(rt; out.contains(*line), "at {words}, {line}: {out}");
        }
    }
    Ok(())
}

#[test]
fn a_port_in_use_is_named(rt: HostRuntime) -> Result<(), Fail> {
    let _taken = TcpListener::bind(&rt, "127.0.0.1:7443")?;
    let (status, out, err) = answer(
        &rt,
        rt.alloc(),
        "node --listen 127.0.0.1:7443 --tick-ms 100",
    )?;
    assert!(rt; status == 1 && out.is_empty(), "{status}");
    assert!(rt;
        err.as_str()
            == "error: the port cannot be bound\n  --listen 127.0.0.1:7443: Address already in use (os error 98)\n",
        "{err}"
    );
    Ok(())
}
