// The decoder built apart.
use std::process::Abort;

/// A field: the byte where it starts, and how many bytes it has.
pub(crate) type Field = (usize, usize);

/// The value of a field, summed up from its bytes: the first counts ones, each next one 256 times as much.
pub(crate) fn value(bytes: &[u8], field: Field) -> u64 {
    let (at, width) = field;
    bytes.iter().skip(at).take(width).rev().fold(
        0,
        |sum: u64, b| sum.wrapping_mul(256).wrapping_add(u64::from(*b)),
    )
}

/// The value of a field of two bytes whose upper half stands for the negative numbers.
pub(crate) fn signed(bytes: &[u8], at: usize) -> i64 {
    let low = i64::from(bytes.get(at).copied().unwrap_or(0));
    let high = i64::from(bytes.get(at.saturating_add(1)).copied().unwrap_or(0));
    if high >= 128 {
        (high - 256) * 256 + low
    } else {
        high * 256 + low
    }
}

// Whether the byte k lies in the field.
fn in_field(k: usize, field: &Field) -> bool {
    let (at, width) = *field;
    at <= k && k - at < width
}

/// What was written of the test message `which` has each byte of `before` that lies in a field, and 0 elsewhere.
pub(crate) fn check_covered(
    rt: &impl Abort,
    which: usize,
    before: &[u8],
    after: &[u8],
    fields: &[Field],
) {
    assert_eq!(rt; before.len(), after.len(), "{which}");
    for (k, (b, a)) in before.iter().zip(after.iter()).enumerate() {
        let inside = fields.iter().any(|field| in_field(k, field));
        let expected = if inside { *b } else { 0 };
        assert_eq!(rt; *a, expected, "{which}, byte {k}");
    }
}

/// The byte k of a test message: 0, 255, k + 1 or 255 - k, so that each byte is distinct; from 4 on, 255 in one field only.
pub(crate) fn sample(which: usize, k: usize, fields: &[Field]) -> u8 {
    match which {
        0 => 0,
        1 => 255,
        2 => (k.wrapping_add(1) & 0xff) as u8,
        3 => (255usize.wrapping_sub(k) & 0xff) as u8,
        _ => match fields.get(which.wrapping_sub(4)) {
            Some(field) if in_field(k, field) => 255,
            _ => 0,
        },
    }
}

/// How many test messages there are.
pub(crate) fn samples(fields: &[Field]) -> usize {
    fields.len().saturating_add(4)
}

/// Puts the test message into a buffer.
pub(crate) fn fill(out: &mut [u8], which: usize, fields: &[Field]) {
    for (k, b) in out.iter_mut().enumerate() {
        *b = sample(which, k, fields);
    }
}
