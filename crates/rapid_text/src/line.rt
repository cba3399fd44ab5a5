// The words and numbers of a line.

ghost use Rattle.std.specs.Prelude.{◌≡◌, ◌≢◌, ◌≤◌, length, take, drop, [], ◌∷◌, not, MatchOption, IfSome};
ghost use Rattle.std.specs.List.{list_all};
ghost use Rattle.rapid_model.specs.Lines.{words, is_allowed, is_plain, number_up_to};
ghost use Rattle.rapid_model.specs.EndpointText.{has_no_needless_zero};
ghost use Rattle.rapid_text.specs.Front.{without_spaces, before_space, from_space};
ghost use Rattle.rapid_text.specs.Spelled.{spelled_from};

/// Whether the line is not too long and has only bytes that are allowed.
pub fn is_plain(line: &[u8]) -> bool
    ensures { result ≡ is_plain line.now }
{
    line.len() <= 256 && all_allowed(line)
}

/// Whether each byte is a space or a byte of a word.
fn all_allowed(line: &[u8]) -> bool
    ensures { result ≡ list_all is_allowed line.now }
{
    let mut allowed = true;
    for byte in line {
        allowed = allowed & (b' ' <= *byte) & (*byte <= b'~');
    }
    allowed
}

/// The first word of a line and what follows it; none if the line has no words.
pub fn split_word(line: &[u8]) -> Option<(&[u8], &[u8])>
    ensures { MatchOption result (words line.now ≡ [])
        (λ r. words line.now ≡ r.0.now ∷ words r.1.now) }
{
    let rest = without_spaces(line);
    if rest.is_empty() {
        return None;
    }
    let end = word_len(rest);
    Some((&rest[..end], &rest[end..]))
}

/// The line without the spaces in front.
fn without_spaces(line: &[u8]) -> &[u8]
    ensures { result.now ≡ without_spaces line.now }
{
    let mut rest = line;
    while let [b' ', others @ ..] = rest {
        rest = others;
    }
    rest
}

/// How many bytes stand before the first space.
fn word_len(line: &[u8]) -> usize
    ensures word { take result line.now ≡ before_space line.now }
    ensures rest { drop result line.now ≡ from_space line.now }
    ensures within { result ≤ length line.now }
{
    for (i, byte) in line.iter().enumerate() {
        if *byte == b' ' {
            return i;
        }
    }
    line.len()
}

/// The words, if these are three.
pub fn three_words(line: &[u8]) -> Option<(&[u8], &[u8], &[u8])>
    ensures { MatchOption result (length (words line.now) ≢ 3) (λ r. words line.now ≡ r.0.now ∷ r.1.now ∷ r.2.now ∷ []) }
{
    let (first, rest) = split_word(line)?;
    let (second, rest) = split_word(rest)?;
    let (third, rest) = split_word(rest)?;
    match split_word(rest) {
        Some(_) => None,
        None => Some((first, second, third)),
    }
}

/// The word, if this is one.
pub fn one_word(line: &[u8]) -> Option<&[u8]>
    ensures { MatchOption result (length (words line.now) ≢ 1) (λ r. words line.now ≡ r.now ∷ []) }
{
    let (first, rest) = split_word(line)?;
    match split_word(rest) {
        Some(_) => None,
        None => Some(first),
    }
}

/// How many digits the greatest number below 2^64 has.
const MOST_DIGITS: usize = 20;

/// The number that a word spells without leading zeros, if it is one up to the limit.
pub fn number(word: &[u8], limit: u64) -> Option<u64>
    ensures value { result ≡ number_up_to limit word.now }
    ensures small { IfSome result (λ n. n ≤ limit) }
{
    if word.is_empty() || word.len() > MOST_DIGITS || has_needless_zero(word) {
        return None;
    }
    let value = digits(word)?;
    if value <= limit { Some(value) } else { None }
}

/// Whether a zero stands in front of other digits.
fn has_needless_zero(word: &[u8]) -> bool
    ensures { result ≡ not (has_no_needless_zero word.now) }
{
    match word {
        [first, _, ..] => *first == b'0',
        _ => false,
    }
}

/// The number that digits spell, if these are digits and it is below 2^64.
fn digits(word: &[u8]) -> Option<u64>
    ensures { result ≡ spelled_from 0 word.now }
{
    let mut value = 0u64;
    for digit in word {
        value = with_digit(value, *digit)?;
    }
    Some(value)
}

/// The number with one more digit, if that is a digit and the number is below 2^64.
fn with_digit(value: u64, digit: u8) -> Option<u64>
    ensures { result ≡ spelled_from value (digit ∷ []) }
{
    if !digit.is_ascii_digit() {
        return None;
    }
    value.checked_mul(10)?.checked_add(u64::from(digit - b'0'))
}
