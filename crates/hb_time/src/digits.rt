//! Numbers of so many decimal digits.

ghost use Rattle.std.specs.Prelude.{◌≡◌, ◌↔◌, ◌+◌, ◌%◌, ◌<◌, ◌≤◌, ◌^◌, ◌++◌, ◌∷◌, ℕ, List, Some, take, length, slice_index};
ghost use Rattle.std.specs.Int.{IsInRange};
ghost use Rattle.hb_time.specs.Texts.{padded};
ghost use Rattle.hb_time.specs.Reading.{taken};

/// The number that the digits at the front make, as many as there are up to `most`, and their
/// count.
pub(crate) fn digits_at(text: &[u8], most: usize) -> (u32, usize)
    requires { most ≤ 9 }
    ensures spelled { take result.1 text.now ≡ padded result.1 result.0 }
    ensures fits { result.0 < 10 ^ result.1 }
    ensures within { (result.1 ≤ length text.now) × (result.1 ≤ most) }
    ensures longest { result.1 < most → result.1 < length text.now
        → IsInRange 48 57 (slice_index text.now result.1) → ⊥ }
{
    let mut number: u32 = 0;
    let mut count = 0;
    while count < most && count < text.len() && text[count].is_ascii_digit() {
        number = 10 * number + u32::from(text[count] - b'0');
        count += 1;
    }
    (number, count)
}

/// The number of so many digits at the front, and what stands behind them.
pub(crate) fn number_at(text: &[u8], width: usize) -> Option<(u32, &[u8])>
    requires { width ≤ 9 }
    ensures exact { (n : ℕ) (rest : List ℕ) → (taken result ≡ Some (n, rest))
        ↔ ((n < 10 ^ width) × (text.now ≡ padded width n ++ rest)) }
{
    let (number, count) = digits_at(text, width);
    if count < width {
        return None;
    }
    Some((number, &text[width..]))
}

/// The same, where this sign stands behind the digits.
pub(crate) fn number_before(text: &[u8], width: usize, sign: u8) -> Option<(u32, &[u8])>
    requires { width ≤ 9 }
    ensures exact { (n : ℕ) (rest : List ℕ) → (taken result ≡ Some (n, rest))
        ↔ ((n < 10 ^ width) × (text.now ≡ padded width n ++ sign ∷ rest)) }
{
    let (number, rest) = number_at(text, width)?;
    match rest {
        [first, rest @ ..] if *first == sign => Some((number, rest)),
        _ => None,
    }
}

/// The last digit of the number.
pub(crate) fn last_digit(number: u32) -> u8
    ensures { result ≡ 48 + number % 10 }
{
    b'0' + (number % 10) as u8
}
