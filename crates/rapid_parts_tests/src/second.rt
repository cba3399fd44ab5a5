// A second reader of texts, processes, configurations and frames, against which the first is tried.
// It goes from byte to byte, keeps nothing, and reads what it needs once more.

use rapid_config::ConfigError;
use rapid_endpoint::{Endpoint, ParseError, ReadError};
use rapid_wire::WireFault;

/// Whether a tag may have this byte: what prints, but for a comma and square brackets.
fn is_allowed(byte: u8) -> bool {
    matches!(byte, b'!'..=b'+' | b'-'..=b'Z' | b'\\' | b'^'..=b'~')
}

/// The byte at a place, or that the bytes end before it.
fn at(bytes: &[u8], place: usize) -> Result<u8, ReadError> {
    match bytes.get(place) {
        Some(byte) => Ok(*byte),
        None => Err(ReadError::Truncated),
    }
}

/// The bytes from a place to an end; none if there are not so many.
pub fn between(bytes: &[u8], start: usize, end: usize) -> &[u8] {
    bytes.get(start..end).unwrap_or(&[])
}

/// Where a byte stands next from a place on; where the text ends, if nowhere.
fn next(text: &[u8], start: usize, wanted: u8) -> usize {
    let mut place = start;
    for byte in between(text, start, text.len()) {
        if *byte == wanted {
            break;
        }
        place = place.saturating_add(1);
    }
    place
}

/// How often a byte stands in a text.
pub fn count_of(text: &[u8], wanted: u8) -> usize {
    let mut count = 0usize;
    for byte in text {
        if *byte == wanted {
            count = count.saturating_add(1);
        }
    }
    count
}

/// The piece with this number, from 0, of those that a byte separates.
pub fn piece(text: &[u8], separator: u8, number: usize) -> &[u8] {
    let mut start = 0usize;
    for _ in 0..number {
        start = next(text, start, separator).saturating_add(1);
    }
    between(text, start, next(text, start, separator))
}

/// The number that 1 to `most` digits spell, without a needless 0 in front.
fn decimal(text: &[u8], most: usize) -> Option<u32> {
    if text.is_empty() || text.len() > most || text.len() > 1 && text.first() == Some(&b'0') {
        return None;
    }
    let mut number = 0u32;
    for byte in text {
        if !b"0123456789".contains(byte) {
            return None;
        }
        let digit = u32::from(byte.saturating_sub(b'0'));
        number = number.saturating_mul(10).saturating_add(digit);
    }
    Some(number)
}

/// The part of a host with this number, from 0.
fn part_of(host: &[u8], number: usize) -> Result<u8, ParseError> {
    match decimal(piece(host, b'.', number), 3) {
        Some(part) => u8::try_from(part).or(Err(ParseError::PartRange)),
        None => Err(ParseError::PartRange),
    }
}

/// The endpoint that a text spells, or why it spells none.
pub fn endpoint(text: &[u8]) -> Result<Endpoint, ParseError> {
    let end = next(text, 0, b':');
    let host = between(text, 0, end);
    if count_of(host, b'.') != 3 {
        return Err(ParseError::NotFourParts);
    }
    let address = [
        part_of(host, 0)?,
        part_of(host, 1)?,
        part_of(host, 2)?,
        part_of(host, 3)?,
    ];
    match decimal(between(text, end.saturating_add(1), text.len()), 5) {
        Some(port) => match u16::try_from(port) {
            Ok(port) => Ok(Endpoint::new(address, port)),
            Err(_) => Err(ParseError::BadPort),
        },
        None => Err(ParseError::BadPort),
    }
}

/// Whether these are the bytes of a tag.
fn is_tag(tag: &[u8]) -> bool {
    for byte in tag {
        if !is_allowed(*byte) {
            return false;
        }
    }
    1 <= tag.len() && tag.len() <= 64
}

/// Why a text spells no tags with commas between them, if it spells none.
pub fn tags_fault(text: &[u8]) -> Option<ParseError> {
    let commas = count_of(text, b',');
    if commas > 7 {
        return Some(ParseError::TooManyTags);
    }
    for number in 0..=commas {
        if !is_tag(piece(text, b',', number)) {
            return Some(ParseError::BadTag);
        }
    }
    for number in 0..commas {
        if piece(text, b',', number.saturating_add(1)) <= piece(text, b',', number) {
            return Some(ParseError::TagsNotSorted);
        }
    }
    None
}

/// Where the tag ends that begins with its length at a place.
fn end_of_tag(bytes: &[u8], start: usize) -> Result<usize, ReadError> {
    let length = at(bytes, start)?;
    if length == 0 || length > 64 {
        return Err(ReadError::BadTags);
    }
    let mut place = start;
    for _ in 0..length {
        place = place.saturating_add(1);
        if !is_allowed(at(bytes, place)?) {
            return Err(ReadError::BadTags);
        }
    }
    Ok(place.saturating_add(1))
}

/// Where the tags end that begin with their number at a place.
pub fn end_of_tags(bytes: &[u8], start: usize) -> Result<usize, ReadError> {
    let count = at(bytes, start)?;
    if count > 8 {
        return Err(ReadError::BadTags);
    }
    let mut end = start.saturating_add(1);
    let mut before: &[u8] = &[];
    for _ in 0..count {
        let first = end.saturating_add(1);
        end = end_of_tag(bytes, end)?;
        if between(bytes, first, end) <= before {
            return Err(ReadError::BadTags);
        }
        before = between(bytes, first, end);
    }
    Ok(end)
}

/// Where the process ends that begins at a place: 22 bytes, and tags.
pub fn end_of_process(bytes: &[u8], start: usize) -> Result<usize, ReadError> {
    at(bytes, start.saturating_add(21))?;
    end_of_tags(bytes, start.saturating_add(22))
}

/// Where this many processes end, the first of which begins at a place.
pub fn end_of_processes(bytes: &[u8], start: usize, count: usize) -> Result<usize, ReadError> {
    let mut end = start;
    for _ in 0..count {
        end = end_of_process(bytes, end)?;
    }
    Ok(end)
}

/// The process with this number, from 0, of those of which the first begins at a place; no bytes if
/// it cannot be read.
pub fn process_number(bytes: &[u8], start: usize, number: usize) -> &[u8] {
    let begins = end_of_processes(bytes, start, number).unwrap_or(usize::MAX);
    between(bytes, begins, end_of_process(bytes, begins).unwrap_or(0))
}

/// The number in two bytes at a place, 0 if they are not there.
fn number_at(bytes: &[u8], place: usize) -> usize {
    match between(bytes, place, place.saturating_add(2)) {
        [high, low] => usize::from(u16::from_be_bytes([*high, *low])),
        _ => 0,
    }
}

/// How many members a configuration announces.
pub fn members_of(bytes: &[u8]) -> usize {
    number_at(bytes, 47)
}

/// Whether the numbers K, H and L of a configuration are in order.
fn are_marks(bytes: &[u8]) -> bool {
    match between(bytes, 44, 47) {
        [k, h, l] => 1 <= *l && *l <= *h && *h <= *k && *k <= 16,
        _ => false,
    }
}

/// A part of the member with this number, from 0.
fn part(bytes: &[u8], number: usize, from: usize, to: usize) -> &[u8] {
    between(process_number(bytes, 49, number), from, to)
}

/// Whether the identifiers of this many members ascend.
fn ascend(bytes: &[u8], count: usize) -> bool {
    for number in 1..count {
        if part(bytes, number, 0, 16) <= part(bytes, number.saturating_sub(1), 0, 16) {
            return false;
        }
    }
    true
}

/// Whether a member has the endpoint of one before it.
fn is_held(bytes: &[u8], number: usize) -> bool {
    for other in 0..number {
        if part(bytes, number, 16, 22) == part(bytes, other, 16, 22) {
            return true;
        }
    }
    false
}

/// Why bytes are no configuration, if they are none.
pub fn configuration_fault(bytes: &[u8]) -> Option<ConfigError> {
    if bytes.len() < 4 {
        return Some(ConfigError::Truncated);
    }
    if between(bytes, 0, 4) != b"RPC2".as_slice() {
        return Some(ConfigError::BadMagic);
    }
    if bytes.len() < 49 {
        return Some(ConfigError::Truncated);
    }
    if !are_marks(bytes) {
        return Some(ConfigError::BadParams);
    }
    if members_of(bytes) > 1024 {
        return Some(ConfigError::TooMany);
    }
    members_fault(bytes, members_of(bytes))
}

/// Why this many members are not what follows the head of a configuration, if they are not.
fn members_fault(bytes: &[u8], count: usize) -> Option<ConfigError> {
    match end_of_processes(bytes, 49, count) {
        Err(ReadError::Truncated) => return Some(ConfigError::Truncated),
        Err(ReadError::BadTags) => return Some(ConfigError::BadTags),
        Ok(end) if end != bytes.len() => return Some(ConfigError::Trailing),
        Ok(_) => {}
    }
    if !ascend(bytes, count) {
        return Some(ConfigError::NotSorted);
    }
    for number in 0..count {
        if is_held(bytes, number) {
            return Some(ConfigError::EndpointTwice);
        }
    }
    None
}

/// Where a part of a body ends, if it can be read.
type End = Option<usize>;

/// Behind this many bytes more.
fn behind(bytes: &[u8], start: usize, count: usize) -> End {
    let end = start.saturating_add(count);
    if end <= bytes.len() { Some(end) } else { None }
}

/// Behind a process.
fn behind_process(bytes: &[u8], start: usize) -> End {
    end_of_process(bytes, start).ok()
}

/// Behind a cut: its number, and processes that strictly ascend.
fn behind_cut(bytes: &[u8], start: usize) -> End {
    let count = number_at(bytes, start);
    if count == 0 || count > 1536 {
        return None;
    }
    let mut end = behind(bytes, start, 2)?;
    let mut before: &[u8] = &[];
    for _ in 0..count {
        let first = end;
        end = behind_process(bytes, first)?;
        if between(bytes, first, end) <= before {
            return None;
        }
        before = between(bytes, first, end);
    }
    Some(end)
}

/// Behind a ballot of a round from 2 to 250 and a position below 1,024, or perhaps the fast one.
fn behind_ballot(bytes: &[u8], start: usize, may_be_fast: bool) -> End {
    let end = behind(bytes, start, 3)?;
    let position = number_at(bytes, start.saturating_add(1));
    match bytes.get(start)? {
        1 if may_be_fast && position == 0 => Some(end),
        2..=250 if position < 1024 => Some(end),
        _ => None,
    }
}

/// Behind the report of a promise: 0, or 1 and a vote.
fn behind_report(bytes: &[u8], start: usize) -> End {
    let end = behind(bytes, start, 1)?;
    match bytes.get(start)? {
        0 => Some(end),
        1 => behind_cut(bytes, behind_ballot(bytes, end, true)?),
        _ => None,
    }
}

/// Behind the alerts of a batch: their number, and each one's ring, kind and subject.
fn behind_alerts(bytes: &[u8], start: usize) -> End {
    let count = number_at(bytes, start);
    if count == 0 || count > 2048 {
        return None;
    }
    let mut end = behind(bytes, start, 2)?;
    for _ in 0..count {
        let subject = behind(bytes, end, 2)?;
        if !matches!(bytes.get(end.saturating_add(1))?, 1 | 2) {
            return None;
        }
        end = behind_process(bytes, subject)?;
    }
    Some(end)
}

/// Behind the observers that a reply names: their number, and each.
fn behind_observers(bytes: &[u8], start: usize) -> End {
    let count = *bytes.get(start)?;
    if count == 0 || count > 16 {
        return None;
    }
    end_of_processes(bytes, start.saturating_add(1), usize::from(count)).ok()
}

/// Behind an answer: a number, and for 1 an identifier and observers.
fn behind_answer(bytes: &[u8], start: usize) -> End {
    let end = behind(bytes, start, 1)?;
    match bytes.get(start)? {
        1 => behind_observers(bytes, behind(bytes, end, 32)?),
        2..=4 => Some(end),
        _ => None,
    }
}

/// Behind a configuration, which takes all bytes.
fn behind_configuration(bytes: &[u8], start: usize) -> End {
    match configuration_fault(bytes.get(start..)?) {
        Some(_) => None,
        None => Some(bytes.len()),
    }
}

/// Behind the body of a kind.
fn behind_body(bytes: &[u8], kind: u8, start: usize) -> End {
    match kind {
        8 => return Some(start),
        9 => return behind_answer(bytes, behind_process(bytes, start)?),
        11 => return behind_configuration(bytes, start),
        _ => {}
    }
    let end = behind(bytes, start, 32)?;
    match kind {
        1 => behind_alerts(bytes, end),
        2 | 7 => behind_cut(bytes, end),
        3 => behind_ballot(bytes, end, false),
        4 => behind_report(bytes, behind_ballot(bytes, end, false)?),
        5 | 6 => behind_cut(bytes, behind_ballot(bytes, end, false)?),
        10 | 14 => behind(bytes, end, 1),
        _ => Some(end),
    }
}

/// Whether bytes are a sender and the body of a kind, and nothing more.
fn are_body(bytes: &[u8], kind: u8) -> bool {
    match end_of_process(bytes, 0) {
        Ok(end) => behind_body(bytes, kind, end) == Some(bytes.len()),
        Err(_) => false,
    }
}

/// Why what follows the length of a frame is no message, if it is none.
fn message_fault(bytes: &[u8]) -> Option<WireFault> {
    match bytes {
        [] | [_] => Some(WireFault::BadBody),
        [2, kind @ 1..=14, rest @ ..] if are_body(rest, *kind) => None,
        [2, 1..=14, ..] => Some(WireFault::BadBody),
        [2, ..] => Some(WireFault::BadKind),
        _ => Some(WireFault::BadVersion),
    }
}

/// What stands in front of a stream: where the frame ends whose message is there; nothing, if no
/// whole frame is there; or a fault.
pub fn frame(bytes: &[u8]) -> Result<Option<usize>, WireFault> {
    let [a, b, c, d, rest @ ..] = bytes else {
        return Ok(None);
    };
    let length = u32::from_be_bytes([*a, *b, *c, *d]);
    if length > 2_097_152 {
        return Err(WireFault::TooLong);
    }
    let Some(payload) = rest.get(..length as usize) else {
        return Ok(None);
    };
    match message_fault(payload) {
        Some(fault) => Err(fault),
        None => Ok(Some(payload.len().saturating_add(4))),
    }
}
