// `sim` at the end of what a world takes. An event that is one too many is refused by name, also
// within a flow, and changes nothing.

use rapid_sim::run_sim;
use std::alloc::Global;
use std::test::Fail;

/// What `sim` writes for these lines, then this many thousands of ticks of process 1, more ticks,
/// then these lines; memory may not run out.
fn printed(
    alloc: Global,
    before: &[u8],
    (thousands, more): (usize, &[u8]),
    after: &[u8],
) -> Result<Vec<u8>, Fail> {
    let mut input = Vec::new(alloc);
    input.extend_from_slice(before)?;
    for _ in 0..thousands {
        input.extend_from_slice(b"tick 1 1000\n")?;
    }
    input.extend_from_slice(more)?;
    input.extend_from_slice(after)?;
    let mut output = Vec::new(alloc);
    match run_sim(alloc, &mut input.as_slice(), &mut output)? {
        0 => Ok(output),
        _ => Err(Fail::new(format_args!("memory ran out"))),
    }
}

/// Wrong tags are told before it.
#[test]
fn a_tick_too_many_is_refused(rt: HostRuntime) -> Result<(), Fail> {
    let before = b"params 3 3 1\nfound 1\n";
    let output = printed(
        rt.alloc(),
        before,
        (1000, b""),
        b"tick 1\ntick 1 1000\nstart 2 2 1 web db\nstart 2 2 1 db web\npackets\n",
    )?;
    assert_eq!(rt;
        output.as_slice(),
        b"node 1 height 0 members 1\nrefused EventsFull\nrefused EventsFull\nrefused TagsNotSorted\n\
          refused EventsFull\npackets 0\n"
            .as_slice()
    );
    Ok(())
}

/// One event is left when the question to join flows. The answer to it is refused, and stays unsettled:
/// a further flow comes to it again, until it is dropped.
#[test]
fn a_packet_too_many_is_refused_within_a_flow(rt: HostRuntime) -> Result<(), Fail> {
    let before = b"params 3 3 1\nfound 1\nstart 2 2 1\ntick 2\n";
    let after = b"packets\nflow\npackets\nflow\ndrop 2\nflow\npackets\nstart 3 3 1\n";
    let output = printed(rt.alloc(), before, (999, b"tick 1 997\n"), after)?;
    assert_eq!(rt;
        output.as_slice(),
        b"node 1 height 0 members 1\npackets 1\nrefused EventsFull\npackets 2\nrefused EventsFull\n\
          packets 2\nrefused EventsFull\n"
            .as_slice()
    );
    Ok(())
}

/// Sixty-four founders, of whom the first misses one edge: it says so to all others, again and again.
const FOUND_64: &[u8] =
    b"params 3 3 2\nfound 1 2 3 4 5 6 7 8 9 10 11 12 13 14 15 16 17 18 19 20 21 22 23 24 25 26 27 28 29 \
      30 31 32 33 34 35 36 37 38 39 40 41 42 43 44 45 46 47 48 49 50 51 52 53 54 55 56 57 58 59 60 61 62 \
      63 64\nprobe 1 0 fail 4\n";

/// In 4,000 ticks it sends 201 batches to 63 others each, and then process 100 asks to join, by packet
/// 12,664. The first flow does not come so far; the second does, and its answer makes three requests.
#[test]
fn a_flow_settles_at_most_10000_packets(rt: HostRuntime) -> Result<(), Fail> {
    let after = b"packets\nstart 100 100 1\ntick 100\nflow\npackets\nflow\npackets\n";
    let output = printed(rt.alloc(), FOUND_64, (4, b""), after)?;
    let last = b" 63 64\npackets 12663\npackets 12664\npackets 12668\n";
    assert!(rt; output.as_slice().ends_with(last.as_slice()));
    Ok(())
}
