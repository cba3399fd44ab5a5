// Numbers in texts.

ghost use Rattle.std.specs.Prelude.{◌≡◌, ◌≤◌, not, length, if◌then◌else◌, Some, None, IfSome};
ghost use Rattle.std.specs.List.{list_all};
ghost use Rattle.rapid_model.specs.EndpointText.{is_digit, is_number, has_no_needless_zero, value_of};

/// The number that a text spells: at most this many digits, at most this limit, and no leading
/// zeros.
pub(crate) fn number(text: &[u8], digits: usize, limit: u32) -> Option<u32>
    requires { digits ≤ 5 }
    ensures value { result ≡ (if is_number digits limit text.now then Some (value_of text.now) else None) }
    ensures within { IfSome result (λ n. n ≤ limit) }
{
    if text.is_empty() || text.len() > digits || has_needless_zero(text) {
        return None;
    }
    let value = spelled(text)?;
    if value <= limit { Some(value) } else { None }
}

fn has_needless_zero(text: &[u8]) -> bool
    ensures { result ≡ not (has_no_needless_zero text.now) }
{
    matches!(text, [b'0', _, ..])
}

// The number that digits spell.
fn spelled(text: &[u8]) -> Option<u32>
    requires { length text.now ≤ 5 }
    ensures { result ≡ (if list_all is_digit text.now then Some (value_of text.now) else None) }
{
    let mut value = 0;
    for &digit in text {
        if !digit.is_ascii_digit() {
            return None;
        }
        value = value * 10 + (digit - b'0') as u32;
    }
    Some(value)
}
