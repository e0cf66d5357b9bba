//! Where a text is cut: at names, spaces, commas and parentheses.

ghost use Rattle.std.specs.Prelude.{◌≡◌, ◌<◌, ◌∷◌, [], false, length, take, drop, MatchOption, not, ◌==◌, ◌+◌, ◌≤◌};
ghost use Rattle.std.specs.List.{prefix_len};
ghost use Rattle.hb_labels.specs.Texts.{is_name_byte, is_space};
ghost use Rattle.hb_labels.specs.Reading.{skip, name_front, name_rest, before_close, from_close, inside_after, pieces};

fn is_name_byte(b: u8) -> bool
    ensures { result ≡ is_name_byte b }
{
    b.is_ascii_alphanumeric() || b == b'-' || b == b'_' || b == b'.' || b == b'/'
}

fn count_spaces(text: &[u8]) -> usize
    ensures value { result ≡ prefix_len is_space text.now }
    ensures within { result ≤ length text.now }
{
    text.iter().take_while(|b| **b == b' ').count()
}

fn count_name(text: &[u8]) -> usize
    ensures value { result ≡ prefix_len is_name_byte text.now }
    ensures within { result ≤ length text.now }
{
    text.iter().take_while(|b| is_name_byte(**b)).count()
}

fn count_open(text: &[u8]) -> usize
    ensures value { result ≡ prefix_len (λ b. not (b == 41)) text.now }
    ensures within { result ≤ length text.now }
{
    text.iter().take_while(|b| **b != b')').count()
}

/// What stands behind the spaces at the front.
pub(crate) fn skip(text: &[u8]) -> &[u8]
    ensures { result.now ≡ skip text.now }
{
    text.split_at(count_spaces(text)).1
}

/// The name at the front, which may be empty, and what stands behind it.
pub(crate) fn name_at(text: &[u8]) -> (&[u8], &[u8])
    ensures name { result.0.now ≡ name_front text.now }
    ensures rest { result.1.now ≡ name_rest text.now }
{
    text.split_at(count_name(text))
}

/// What stands before the first `)`, and what from it on.
pub(crate) fn until_close(text: &[u8]) -> (&[u8], &[u8])
    ensures inner { result.0.now ≡ before_close text.now }
    ensures rest { result.1.now ≡ from_close text.now }
{
    text.split_at(count_open(text))
}

/// Whether the place behind a byte is inside parentheses.
fn inside_after(inside: bool, b: u8) -> bool
    ensures { result ≡ inside_after inside b }
{
    match b {
        b'(' => true,
        b')' => false,
        _ => inside,
    }
}

/// Where the first comma outside parentheses stands.
fn comma_at(text: &[u8]) -> Option<usize>
    ensures { MatchOption result (pieces false text.now ≡ text.now ∷ [])
        (λ at. (at < length text.now)
        × (pieces false text.now ≡ take at text.now ∷ pieces false (drop (at + 1) text.now))) }
{
    let mut inside = false;
    for (i, b) in text.iter().enumerate() {
        if *b == b',' && !inside {
            return Some(i);
        }
        inside = inside_after(inside, *b);
    }
    None
}

/// What stands before the first comma outside parentheses, and what behind it.
pub(crate) fn cut(text: &[u8]) -> Option<(&[u8], &[u8])>
    ensures { MatchOption result (pieces false text.now ≡ text.now ∷ [])
        (λ r. (length r.1.now < length text.now)
        × (pieces false text.now ≡ r.0.now ∷ pieces false r.1.now)) }
{
    let at = comma_at(text)?;
    let (front, rest) = text.split_at(at);
    let (_, more) = rest.split_at(1);
    Some((front, more))
}
