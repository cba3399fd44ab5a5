// Worked inputs of `sim`, in none of which memory runs out.

use rapid_sim::run_sim;
use std::alloc::{AllocError, Global};
use std::test::Fail;

/// What `sim` writes for these lines, which ` / ` separates, and how often memory ran out.
fn printed(alloc: Global, lines: &str) -> Result<(Vec<u8>, u64), Fail> {
    let input = joined(alloc, lines)?;
    let mut output = Vec::new(alloc);
    let met = run_sim(alloc, &mut input.as_slice(), &mut output)?;
    Ok((output, met))
}

/// These lines with their ends.
pub fn joined(alloc: Global, lines: &str) -> Result<Vec<u8>, AllocError> {
    let mut text = Vec::new(alloc);
    if lines.is_empty() {
        return Ok(text);
    }
    for line in lines.split(" / ") {
        text.extend_from_slice(line.as_bytes())?;
        text.push(b'\n')?;
    }
    Ok(text)
}

/// Whether `sim` writes these lines for those, and never runs out of memory.
fn prints(alloc: Global, lines: &str, wanted: &str) -> Result<bool, Fail> {
    let (output, met) = printed(alloc, lines)?;
    let wanted = joined(alloc, wanted)?;
    Ok(met == 0 && output.as_slice() == wanted.as_slice())
}

#[test]
fn prints_the_worked_outputs(rt: HostRuntime) -> Result<(), Fail> {
    let rows = [
        ("", ""),
        (
            "params 3 3 1 / found 1 / start 2 2 1 / tick 2 / flow / deliver 3 / deliver 4 / \
             deliver 5 / tick 1 / flow / packets",
            "node 1 height 0 members 1 / node 1 height 1 members 1 2 / \
             node 2 height 1 members 1 2 / packets 6",
        ),
        (
            "params 3 3 1 / found 1 / start 2 2 1 / tick 2 / flow / tick 1 / drop 6 / tick 2 10 / \
             flow / packets / start 2 9 1",
            "node 1 height 0 members 1 / node 1 height 1 members 1 2 / \
             node 2 height 1 members 1 2 / packets 8 / refused IdentifierUsed",
        ),
        (
            "params 3 3 1 / found 1 2 / crash 2 / probe 1 0 fail 4 / probe 1 1 fail 4 / \
             probe 1 2 fail 4 / tick 1 60 / packets",
            "node 1 height 0 members 1 2 / node 2 height 0 members 1 2 / packets 10",
        ),
        (
            "params 3 3 1 / found 1 2 / probe 1 0 fail 4 / tick 1 40 / packets / tick 1 / \
             packets / flow",
            "node 1 height 0 members 1 2 / node 2 height 0 members 1 2 / packets 3 / packets 5 / \
             node 2 removed at height 1 / node 1 height 1 members 1",
        ),
        (
            "params 3 3 1 / found 1 2 3 / crash 3 / lose 3 / tick 1 / tick 2 / flow / tick 1 20 / \
             flow",
            "node 1 height 0 members 1 2 3 / node 2 height 0 members 1 2 3 / \
             node 3 height 0 members 1 2 3 / node 2 height 1 members 1 2 / \
             node 1 height 1 members 1 2",
        ),
        (
            "params 3 3 1 / found 1 / probe 1 0 ok / deliver 1 / tick 9 / start 1 8 1 / \
             start 8 1 1",
            "node 1 height 0 members 1 / refused NotObserved / refused NoSuchPacket / \
             refused NoSuchNode / refused IdentifierUsed / refused EndpointBusy",
        ),
        (
            "params 3 3 1 / found 1 2 / leave 2 / flow / tick 1 / flow / packets",
            "node 1 height 0 members 1 2 / node 2 height 0 members 1 2 / \
             node 2 removed at height 1 / node 1 height 1 members 1 / packets 6",
        ),
        (
            // a member that is alone has no observer, and who joins has no view to leave
            "params 3 3 1 / found 1 / leave 1 / start 2 2 1 / leave 2 / packets / leave 3 / \
             crash 1 / leave 1 / leave 1 2",
            "node 1 height 0 members 1 / packets 0 / refused NoSuchNode / refused NoSuchNode / \
             refused BadLine",
        ),
    ];
    for (lines, wanted) in rows {
        assert!(rt; prints(rt.alloc(), lines, wanted)?, "at {lines}");
    }
    Ok(())
}

/// Tags stand where a member is printed, and not where a node is.
#[test]
fn prints_tags_with_members(rt: HostRuntime) -> Result<(), Fail> {
    let rows = [
        (
            "params 3 3 1 / found 1 / start 2 2 1 web db / start 2 2 1 db web / tick 2 / flow / \
             tick 1 / flow",
            "node 1 height 0 members 1 / refused TagsNotSorted / \
             node 1 height 1 members 1 2[db,web] / node 2 height 1 members 1 2[db,web]",
        ),
        (
            "params 3 3 1 / found 1 / start 2 2 1  db  / tick 2 / flow / tick 1 / flow / \
             packets / leave 2 / flow / tick 1 / flow",
            "node 1 height 0 members 1 / node 1 height 1 members 1 2[db] / \
             node 2 height 1 members 1 2[db] / packets 6 / node 2 removed at height 2 / \
             node 1 height 2 members 1",
        ),
        (
            // a member is lost by its number, whatever its tags: one batch, and one vote
            "params 3 3 1 / found 1 / start 2 2 1 db / tick 2 / flow / tick 1 / flow / crash 2 / \
             lose 2 / tick 1 / packets",
            "node 1 height 0 members 1 / node 1 height 1 members 1 2[db] / \
             node 2 height 1 members 1 2[db] / packets 8",
        ),
    ];
    for (lines, wanted) in rows {
        assert!(rt; prints(rt.alloc(), lines, wanted)?, "at {lines}");
    }
    Ok(())
}

/// A line that is none comes first, then that nothing was founded, then the tags, and then what the
/// world refuses.
#[test]
fn refuses_tags_by_their_rules(rt: HostRuntime) -> Result<(), Fail> {
    let rows = [
        (
            "start 2 2 1 web db / params 3 3 1 / start 2 2 1 web db / start 2 2 x web db / found 1",
            "refused NoParams / refused NoParams / refused BadLine / node 1 height 0 members 1",
        ),
        (
            // the number and the endpoint are in use
            "params 3 3 1 / found 1 / start 1 1 1 web db / start 1 1 1 db web / \
             start 2 1 1 a,b / start 2 1 1 ab",
            "node 1 height 0 members 1 / refused TagsNotSorted / refused IdentifierUsed / \
             refused BadTag / refused EndpointBusy",
        ),
        (
            "params 3 3 1 / found 1 / start 2 2 / start 0 2 1 web db / start 2 65536 1 web db / \
             start 2 2 01 web db",
            "node 1 height 0 members 1 / refused BadLine / refused BadLine / refused BadLine / \
             refused BadLine",
        ),
        (
            // nine are too many, whatever they are; a wrong one is told before their order
            "params 3 3 1 / found 1 / start 2 2 1 1 2 3 4 5 6 7 8 9 / start 2 2 1 9 , 7 6 5 4 3 2 1 / \
             start 2 2 1 b a [ / start 2 2 1 b a a] / start 2 2 1 a a / start 2 2 1 aa a",
            "node 1 height 0 members 1 / refused TooManyTags / refused TooManyTags / \
             refused BadTag / refused BadTag / refused TagsNotSorted / refused TagsNotSorted",
        ),
        (
            // eight are taken, in the order of words; a tag has at most 64 bytes
            "params 3 3 1 / found 1 / \
             start 2 2 1 xxxxxxxxxxxxxxxxxxxxxxxxxxxxxxxxxxxxxxxxxxxxxxxxxxxxxxxxxxxxxxxxx / \
             start 2 2 1 xxxxxxxxxxxxxxxxxxxxxxxxxxxxxxxxxxxxxxxxxxxxxxxxxxxxxxxxxxxxxxxx / \
             start 3 3 1 ! 1 10 2 A aa b ~ / start 3 3 1",
            "node 1 height 0 members 1 / refused BadTag / refused IdentifierUsed",
        ),
    ];
    for (lines, wanted) in rows {
        assert!(rt; prints(rt.alloc(), lines, wanted)?, "at {lines}");
    }
    Ok(())
}

#[test]
fn refuses_lines_by_their_rules(rt: HostRuntime) -> Result<(), Fail> {
    let rows = [
        (
            "packets / params 3 3 1 x / params 256 1 1 / params 3 4 1 / drop 1 / found 1",
            "refused NoParams / refused BadLine / refused BadLine / refused BadParams / \
             refused BadLine / refused NoParams",
        ),
        (
            "params 3 3 1 / params 3 3 1 / start 2 2 1 / found 2 1 / found / found 1 1 / drop 1",
            "refused BadLine / refused NoParams / refused BadLine / refused BadLine / \
             refused BadLine / refused BadLine",
        ),
        (
            "params 3 3 1 / found 1 / found 1 / deliver 0 / drop 1 / flow 1 / crash 2 1 / \
             probe 1 0 maybe / probe 1 0 ok 0 / sim",
            "node 1 height 0 members 1 / refused BadLine / refused BadLine / refused BadLine / \
             refused BadLine / refused BadLine / refused BadLine / refused BadLine / \
             refused BadLine",
        ),
        (
            "params 3 3 1 / found 1 / tick 1 1001 / tick 1 01 / tick 0 / tick 65536 / # x / \
             packets",
            "node 1 height 0 members 1 / refused BadLine / refused BadLine / refused BadLine / \
             refused BadLine / packets 0",
        ),
        (
            // a repeated event prints its refusal once, and a process may have any port
            "params 3 3 1 / found 1 / crash 3 / tick 3 1000 / lose 9 / start 2 0 1 / \
             start 2 0 1 / start 3 0 1",
            "node 1 height 0 members 1 / refused NoSuchNode / refused NoSuchNode / \
             refused IdentifierUsed / refused EndpointBusy",
        ),
    ];
    for (lines, wanted) in rows {
        assert!(rt; prints(rt.alloc(), lines, wanted)?, "at {lines}");
    }
    Ok(())
}

/// A packet that is dropped, or delivered once, is skipped by later flows; it can still be
/// delivered.
#[test]
fn settles_packets(rt: HostRuntime) -> Result<(), Fail> {
    let rows = [
        (
            // the second packet is settled before the first: the flow delivers the first alone, and
            // the answer to it
            "params 3 3 1 / found 1 / start 2 2 1 / start 3 3 1 / tick 2 / tick 3 / drop 2 / \
             flow / packets",
            "node 1 height 0 members 1 / packets 6",
        ),
        (
            "params 3 3 1 / found 1 / start 2 2 1 / tick 2 / drop 1 / flow / packets / \
             deliver 1 / packets / flow / packets",
            "node 1 height 0 members 1 / packets 1 / packets 2 / packets 5",
        ),
        (
            // a packet to a node that has crashed is settled, and is not delivered later
            "params 3 3 1 / found 1 / start 2 2 1 / tick 2 / deliver 1 / crash 2 / flow / \
             start 9 2 1 / flow / packets / deliver 2 / packets",
            "node 1 height 0 members 1 / packets 2 / packets 2",
        ),
    ];
    for (lines, wanted) in rows {
        assert!(rt; prints(rt.alloc(), lines, wanted)?, "at {lines}");
    }
    Ok(())
}
