// The worked cases, and what no clause says: printed text, and calls with values that are known
// from outside.

use crate::numbered::MOST;
use rapid_endpoint::{
    Endpoint, ParseError, Process, ProcessId, ReadError, Tags, endpoints_have_one_spelling,
};
use std::alloc::{AllocError, Global};
use std::cmp::Ordering;
use std::test::Fail;

/// Whether a text is read as this endpoint, and printed as it was.
fn is_endpoint(alloc: Global, (text, address, port): &(&str, [u8; 4], u16)) -> Result<bool, Fail> {
    let endpoint = Endpoint::parse(text)?;
    let printed = endpoint.to_string(alloc)?;
    Ok(endpoint == Endpoint::new(*address, *port) && printed.as_str() == *text)
}

const ENDPOINTS: [(&str, [u8; 4], u16); 5] = [
    ("127.0.0.1:7000", [127, 0, 0, 1], 7000),
    ("0.0.0.0:0", [0; 4], 0),
    ("1.2.3.4:0", [1, 2, 3, 4], 0),
    ("255.255.255.255:65535", [255; 4], 65_535),
    ("0.10.100.0:1", [0, 10, 100, 0], 1),
];

#[test]
fn endpoints_are_read_and_printed(rt: HostRuntime) -> Result<(), Fail> {
    for row in &ENDPOINTS {
        assert!(rt; is_endpoint(rt.alloc(), row)?, "at {row:?}");
    }
    let endpoint = Endpoint::parse("127.0.0.1:7000")?;
    assert!(rt; endpoint.to_bytes() == [0x7f, 0, 0, 1, 0x1b, 0x58]);
    assert!(rt; endpoint.address() == [127, 0, 0, 1] && endpoint.port() == 7000);
    Ok(())
}

/// Sees that all texts are refused as endpoints for this reason.
fn are_refused(texts: &[&str], error: ParseError) -> Result<(), Fail> {
    for text in texts {
        if Endpoint::parse(text) != Err(error) {
            return Err(Fail::new(format_args!("not refused so: {text:?}")));
        }
    }
    Ok(())
}

const OTHER_HOSTS: [&str; 8] = [
    "127.0.1:7000",
    "",
    ":1",
    "1.2.3.4.5:1",
    "1.2.3.4.:1",
    "localhost:7000",
    "999.x.01",
    "1:2.3.4.5",
];

const OTHER_PARTS: [&str; 12] = [
    "127.0.0.256:1",
    "127.0.0.01:1",
    "127.0.0.00:1",
    "127.0.0.1000:1",
    "127.0.0.:1",
    "...:1",
    "127.0.0.+1:1",
    "127.0.0.1a:1",
    "127. 0.0.1:1",
    "127.0.0.-1",
    "127.0.0.256:x",
    "127.0.0.0x1:1",
];

const OTHER_PORTS: [&str; 12] = [
    "127.0.0.1",
    "127.0.0.1:65536",
    "1.2.3.4:",
    "1.2.3.4:00",
    "1.2.3.4:080",
    "1.2.3.4:100000",
    "1.2.3.4:+1",
    "1.2.3.4:1 ",
    "1.2.3.4:1:2",
    "1.2.3.4::1",
    "1.2.3.4:1.5",
    "1.2.3.4:http",
];

#[test]
fn other_texts_are_refused_by_name() -> Result<(), Fail> {
    are_refused(&OTHER_HOSTS, ParseError::NotFourParts)?;
    are_refused(&OTHER_PARTS, ParseError::PartRange)?;
    are_refused(&OTHER_PORTS, ParseError::BadPort)
}

const ASCENDING: [u8; 16] = [
    0x00, 0x11, 0x22, 0x33, 0x44, 0x55, 0x66, 0x77, 0x88, 0x99, 0xaa, 0xbb, 0xcc, 0xdd, 0xee, 0xff,
];

/// Whether a text is read as the ascending identifier, and printed in the usual form.
fn is_identifier(alloc: Global, text: &str) -> Result<bool, Fail> {
    let id = ProcessId::parse(text)?;
    let printed = id.to_string(alloc)?;
    Ok(id.bytes() == ASCENDING && printed.as_str() == "00112233-4455-6677-8899-aabbccddeeff")
}

const IDENTIFIERS: [&str; 5] = [
    "00112233-4455-6677-8899-aabbccddeeff",
    "00112233-4455-6677-8899-AABBCCDDEEFF",
    "00112233445566778899aabbccddeeff",
    "{00112233-4455-6677-8899-aabbccddeeff}",
    "urn:uuid:00112233-4455-6677-8899-aabbccddeeff",
];

#[test]
fn identifiers_are_read_in_each_form(rt: HostRuntime) -> Result<(), Fail> {
    for text in &IDENTIFIERS {
        assert!(rt; is_identifier(rt.alloc(), text)?, "at {text:?}");
    }
    Ok(())
}

const OTHER_IDENTIFIERS: [&str; 9] = [
    "",
    "1",
    "00112233-4455-6677-8899-aabbccddeef",
    "00112233-4455-6677-8899-aabbccddeeff0",
    "00112233-4455-6677-8899-aabbccddeefg",
    "0011-22334455-6677-8899-aabbccddeeff",
    " 0112233445566778899aabbccddeeff",
    "{00112233445566778899aabbccddeeff}",
    "urn:uuid:00112233445566778899aabbccddeeff",
];

#[test]
fn other_texts_are_no_identifiers(rt: HostRuntime) {
    for text in &OTHER_IDENTIFIERS {
        assert!(rt;
            ProcessId::parse(text) == Err(ParseError::BadIdentifier),
            "at {text:?}"
        );
    }
}

fn process(id: u8, address: u8, port: u16) -> Process {
    Process::new(
        ProcessId::new(u128::from(id).to_be_bytes()),
        Endpoint::new([127, 0, 0, address], port),
    )
}

/// The bytes of the ascending identifier, and of the endpoint 127.0.0.1:7000.
const KEY: [u8; 22] = [
    0x00, 0x11, 0x22, 0x33, 0x44, 0x55, 0x66, 0x77, 0x88, 0x99, 0xaa, 0xbb, 0xcc, 0xdd, 0xee, 0xff,
    0x7f, 0, 0, 1, 0x1b, 0x58,
];

/// Lists of tags, and their bytes.
const TAGS: [(&[&[u8]], &[u8]); 3] = [
    (&[], &[0]),
    (&[b"db"], b"\x01\x02db"),
    (&[b"db", b"web"], b"\x02\x02db\x03web"),
];

/// The process of the ascending identifier at 127.0.0.1:7000 with these tags.
fn ascending(tags: &[&[u8]]) -> Result<Process, ParseError> {
    let endpoint = Endpoint::new([127, 0, 0, 1], 7000);
    Process::tagged(ProcessId::new(ASCENDING), endpoint, tags)
}

/// Whether a process has the ascending identifier, the endpoint and tags of these bytes.
fn has_parts(made: &Process, tags: &[u8]) -> bool {
    made.id().bytes() == ASCENDING
        && made.endpoint() == Endpoint::new([127, 0, 0, 1], 7000)
        && made.tags().as_bytes() == tags
        && made.key_bytes() == KEY
}

#[test]
fn a_process_has_its_parts(rt: HostRuntime) -> Result<(), Fail> {
    for (list, bytes) in &TAGS {
        let made = ascending(list)?;
        assert!(rt; has_parts(&made, bytes), "at {bytes:?}");
        assert!(rt; made == Process::of(made.id(), made.endpoint(), Tags::new(list)?));
        made.tell();
        made.id().tell();
        made.endpoint().tell();
        made.tags().tell();
    }
    let bare = ascending(&[])?;
    assert!(rt; bare == Process::new(bare.id(), bare.endpoint()));
    Ok(())
}

/// The bytes of the ascending identifier and the endpoint behind some bytes, and others behind these.
fn joined(alloc: Global, before: &[u8], after: &[u8]) -> Result<Vec<u8>, AllocError> {
    let mut bytes = Vec::from_slice(alloc, before)?;
    bytes.extend_from_slice(&KEY)?;
    bytes.extend_from_slice(after)?;
    Ok(bytes)
}

/// Whether the bytes of a process end with these of its tags, also behind others.
fn has_bytes(alloc: Global, made: &Process, tags: &[u8]) -> Result<bool, AllocError> {
    let expected = joined(alloc, &[], tags)?;
    let mut appended = Vec::from_slice(alloc, b"before")?;
    made.append_to(&mut appended)?;
    Ok(
        made.to_bytes(alloc)?.as_slice() == expected.as_slice()
            && appended.as_slice() == joined(alloc, b"before", tags)?.as_slice()
            && made.length() == expected.len(),
    )
}

#[test]
fn a_process_has_its_bytes(rt: HostRuntime) -> Result<(), Fail> {
    for (list, bytes) in &TAGS {
        assert!(rt;
            has_bytes(rt.alloc(), &ascending(list)?, bytes)?,
            "at {bytes:?}"
        );
    }
    Ok(())
}

/// Whether a process is read from its bytes, whatever follows, and each beginning of these is too
/// short.
fn is_read(alloc: Global, made: &Process, tags: &[u8]) -> Result<bool, AllocError> {
    let mut bytes = joined(alloc, &[], tags)?;
    let length = bytes.len();
    bytes.extend_from_slice(&[7, 7])?;
    for some in 0..length {
        if Process::read(bytes.get(..some).unwrap_or(&[])) != Err(ReadError::Truncated) {
            return Ok(false);
        }
    }
    Ok(Process::read(bytes.as_slice()) == Ok((*made, length)))
}

#[test]
fn processes_are_read(rt: HostRuntime) -> Result<(), Fail> {
    for (list, bytes) in &TAGS {
        assert!(rt;
            is_read(rt.alloc(), &ascending(list)?, bytes)?,
            "at {bytes:?}"
        );
    }
    Ok(())
}

/// Bytes behind an identifier and an endpoint that are no tags, and why.
const WRONG: [(&[u8], ReadError); 8] = [
    // a process of the first version
    (&[], ReadError::Truncated),
    (&[9], ReadError::BadTags),
    (&[1, 0], ReadError::BadTags),
    (&[1, 65], ReadError::BadTags),
    (b"\x01\x03a,", ReadError::BadTags),
    (b"\x01\x03ab", ReadError::Truncated),
    (b"\x02\x03web\x02db", ReadError::BadTags),
    (b"\x02\x03web\x02d", ReadError::Truncated),
];

#[test]
fn other_bytes_are_no_process(rt: HostRuntime) -> Result<(), Fail> {
    for (tags, error) in &WRONG {
        let bytes = joined(rt.alloc(), &[], tags)?;
        assert!(rt;
            Process::read(bytes.as_slice()) == Err(*error),
            "at {tags:?}"
        );
    }
    Ok(())
}

/// Whether a process is read over another from its bytes, whatever follows. The other one stays as
/// it was at each beginning of these, which is too short.
fn is_read_over(
    alloc: Global,
    made: &Process,
    tags: &[u8],
    before: Process,
) -> Result<bool, AllocError> {
    let mut bytes = joined(alloc, &[], tags)?;
    let length = bytes.len();
    bytes.extend_from_slice(&[7, 7])?;
    let mut process = before;
    for some in 0..length {
        let beginning = bytes.get(..some).unwrap_or(&[]);
        if process.read_over(beginning) != Err(ReadError::Truncated) || process != before {
            return Ok(false);
        }
    }
    Ok(process.read_over(bytes.as_slice()) == Ok(length) && process == *made)
}

/// Processes without tags, with some, and with as many as there may be, that are read over.
fn others() -> Result<[Process; 3], ParseError> {
    let [a, b, c, d, e, f, g, h] = &MOST;
    Ok([
        process(7, 1, 1),
        ascending(&[b"a"])?,
        ascending(&[a, b, c, d, e, f, g, h])?,
    ])
}

#[test]
fn processes_are_read_over_others(rt: HostRuntime) -> Result<(), Fail> {
    let others = others()?;
    for (list, bytes) in &TAGS {
        for before in &others {
            let made = ascending(list)?;
            assert!(rt;
                is_read_over(rt.alloc(), &made, bytes, *before)?,
                "at {bytes:?}"
            );
        }
    }
    Ok(())
}

#[test]
fn a_process_of_other_bytes_is_not_read_over(rt: HostRuntime) -> Result<(), Fail> {
    let before = ascending(&[b"db", b"web"])?;
    for (tags, error) in &WRONG {
        let bytes = joined(rt.alloc(), &[], tags)?;
        let mut process = before;
        let read = process.read_over(bytes.as_slice());
        assert!(rt; read == Err(*error) && process == before, "at {tags:?}");
    }
    Ok(())
}

#[test]
fn the_length_of_a_process_is_found(rt: HostRuntime) -> Result<(), Fail> {
    for (_, tags) in &TAGS {
        let bytes = joined(rt.alloc(), &[], tags)?;
        let found = Process::length_at(bytes.as_slice());
        assert!(rt; found == Ok(bytes.len()), "at {tags:?}");
    }
    for (tags, error) in &WRONG {
        let bytes = joined(rt.alloc(), &[], tags)?;
        let found = Process::length_at(bytes.as_slice());
        assert!(rt; found == Err(*error), "at {tags:?}");
    }
    Ok(())
}

/// Lists that are no tags, and why: too many are told first, then a wrong one, then the order.
const OTHER_TAGS: [(&[&[u8]], ParseError); 6] = [
    (&[b"web", b"db"], ParseError::TagsNotSorted),
    (&[b"db", b"db"], ParseError::TagsNotSorted),
    (&[b"web", b"d b"], ParseError::BadTag),
    (&[b""], ParseError::BadTag),
    (
        &[b"1", b"2", b"3", b"4", b"5", b"6", b"7", b"8", b"9"],
        ParseError::TooManyTags,
    ),
    (
        &[b"9", b",", b"7", b"6", b"5", b"4", b"3", b"2", b"1"],
        ParseError::TooManyTags,
    ),
];

#[test]
fn tags_of_a_process_are_refused_by_name(rt: HostRuntime) {
    for (list, error) in &OTHER_TAGS {
        assert!(rt; ascending(list) == Err(*error), "at {list:?}");
    }
}

#[test]
fn a_process_has_at_most_543_bytes(rt: HostRuntime) -> Result<(), Fail> {
    let [a, b, c, d, e, f, g, h] = &MOST;
    let made = ascending(&[a, b, c, d, e, f, g, h])?;
    let bytes = made.to_bytes(rt.alloc())?;
    assert!(rt; made.length() == 543 && bytes.len() == 543);
    assert!(rt; Process::read(bytes.as_slice()) == Ok((made, 543)));
    Ok(())
}

/// The parts of a process.
type Parts = (u8, u8, u16);

/// Whether two processes are in this order.
fn are_ordered(low: &Process, high: &Process, order: Ordering) -> bool {
    low.cmp(high) == order
        && (low < high) == (order == Ordering::Less)
        && (low == high) == (order == Ordering::Equal)
}

const ORDERS: [(Parts, Parts, Ordering); 6] = [
    ((1, 9, 9), (2, 1, 1), Ordering::Less),
    ((1, 1, 9), (1, 2, 1), Ordering::Less),
    ((1, 1, 256), (1, 1, 255), Ordering::Greater),
    ((1, 9, 9), (1, 9, 9), Ordering::Equal),
    ((1, 9, 9), (1, 9, 8), Ordering::Greater),
    ((1, 9, 9), (2, 9, 9), Ordering::Less),
];

/// The process of these parts.
fn of((id, address, port): &Parts) -> Process {
    process(*id, *address, *port)
}

/// The process of these parts and tags.
fn with(parts: &Parts, tags: &[&[u8]]) -> Result<Process, ParseError> {
    let process = of(parts);
    Process::tagged(process.id(), process.endpoint(), tags)
}

#[test]
fn processes_are_ordered_by_identifier_first(rt: HostRuntime) {
    for (low, high, order) in &ORDERS {
        assert!(rt;
            are_ordered(&of(low), &of(high), *order),
            "at {low:?} and {high:?}"
        );
    }
}

/// Tags that stand at neither, or at one or both of two processes, whichever order these have.
const BESIDE: [(&[&[u8]], &[&[u8]]); 3] = [
    (&[b"web"], &[]),
    (&[], &[b"db"]),
    (&[b"db", b"web"], &[b"db"]),
];

/// Whether two processes with these parts are in this order, whatever their tags; not if they have
/// the same parts.
fn goes_by_parts(low: &Parts, high: &Parts, order: Ordering) -> Result<bool, ParseError> {
    for (mine, others) in &BESIDE {
        if !are_ordered(&with(low, mine)?, &with(high, others)?, order) {
            return Ok(false);
        }
    }
    Ok(true)
}

#[test]
fn identifiers_and_endpoints_are_compared_before_tags(rt: HostRuntime) -> Result<(), Fail> {
    for (low, high, order) in &ORDERS {
        let expected = *order != Ordering::Equal;
        assert!(rt;
            goes_by_parts(low, high, *order)? == expected,
            "at {low:?} and {high:?}"
        );
    }
    Ok(())
}

/// Tags, from low to high: by their number, then by the length of the first that differs, then by
/// its bytes.
const ASCENDING_TAGS: [&[&[u8]]; 6] = [
    &[],
    &[b"a"],
    &[b"z"],
    &[b"aa"],
    &[b"a", b"aa"],
    &[b"a", b"ab"],
];

#[test]
fn processes_that_differ_in_tags_alone_go_by_the_bytes_of_these(
    rt: HostRuntime,
) -> Result<(), Fail> {
    for pair in ASCENDING_TAGS.windows(2) {
        let (low, high) = (ascending(pair[0])?, ascending(pair[1])?);
        assert!(rt; are_ordered(&low, &high, Ordering::Less), "at {pair:?}");
        assert!(rt; are_ordered(&high, &low, Ordering::Greater), "at {pair:?}");
        assert!(rt; are_ordered(&low, &low, Ordering::Equal), "at {pair:?}");
        assert!(rt; shared(&low, &high) == (true, true), "at {pair:?}");
    }
    Ok(())
}

/// Whether two processes share an identifier, and whether they share an endpoint.
fn shared(one: &Process, other: &Process) -> (bool, bool) {
    (one.has_same_identifier(other), one.has_same_endpoint(other))
}

#[test]
fn processes_share_an_identifier_or_an_endpoint(rt: HostRuntime) {
    let low = process(1, 9, 9);
    assert!(rt; shared(&low, &process(1, 1, 1)) == (true, false));
    assert!(rt; shared(&low, &process(2, 9, 9)) == (false, true));
    assert!(rt; shared(&low, &process(1, 9, 8)) == (true, false));
}

#[test]
fn the_law_of_texts_can_be_called() {
    endpoints_have_one_spelling();
}

const CODES: [(ParseError, u8); 4] = [
    (ParseError::NotFourParts, 1),
    (ParseError::PartRange, 2),
    (ParseError::BadPort, 3),
    (ParseError::BadIdentifier, 4),
];

#[test]
fn errors_have_numbers(rt: HostRuntime) {
    for (error, code) in &CODES {
        assert!(rt; error.code() == *code, "at {error:?}");
    }
}
