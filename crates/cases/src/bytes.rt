// Blanks, numbers and lists of bytes. A blank is a space, the end of a line, or any byte below these.

// The most bytes that a list has.
pub(crate) const MOST: usize = 1024;

// The first bytes up to the first one above `most`, and the bytes from there on.
pub(crate) fn up_to(text: &[u8], most: u8) -> (&[u8], &[u8]) {
    let n = text.iter().position(|b| *b > most).unwrap_or(text.len());
    text.split_at(n)
}

// The bytes behind the first blanks.
pub(crate) fn after_blanks(text: &[u8]) -> &[u8] {
    up_to(text, b' ').1
}

// The number of the first digits, and the bytes behind them. None where there is no digit, or the number is above all `usize`.
pub(crate) fn number(text: &[u8]) -> Option<(usize, &[u8])> {
    let n = text
        .iter()
        .position(|b| !b.is_ascii_digit())
        .unwrap_or(text.len());
    let (digits, rest) = text.split_at(n);
    let value = std::str::from_utf8(digits).ok()?.parse::<usize>().ok()?;
    Some((value, rest))
}

// `v` or `v*n`: a byte, and how many times it stands there.
fn run(item: &[u8]) -> Option<(u8, usize)> {
    let (value, rest) = number(item)?;
    let byte = u8::try_from(value).ok()?;
    if rest.is_empty() {
        return Some((byte, 1));
    }
    let (times, rest) = number(rest.strip_prefix(b"*")?)?;
    rest.is_empty().then_some((byte, times))
}

// The bytes of a list, put at the front of a buffer: its runs, one byte at least, or `-` for none. None where it cannot be read, or has
// more bytes than the buffer.
pub(crate) fn list<'a>(text: &[u8], into: &'a mut [u8; MOST]) -> Option<&'a [u8]> {
    let text = after_blanks(text);
    if text
        .strip_prefix(b"-")
        .is_some_and(|rest| after_blanks(rest).is_empty())
    {
        return Some(b"");
    }
    let mut n = 0usize;
    for item in text.split(|b| *b <= b' ').filter(|item| !item.is_empty()) {
        let (byte, times) = run(item)?;
        let end = n.checked_add(times)?;
        into.get_mut(n..end)?.fill(byte);
        n = end;
    }
    if n == 0 { None } else { into.get(..n) }
}
