//! Words that are mistyped.

// What two texts have at their fronts that is the same is left out.
fn without_same_front<'a, 'b>(a: &'a [u8], b: &'b [u8]) -> (&'a [u8], &'b [u8]) {
    let same = a
        .iter()
        .zip(b.iter())
        .take_while(|pair| pair.0 == pair.1)
        .count();
    (a.get(same..).unwrap_or(&[]), b.get(same..).unwrap_or(&[]))
}

// What two texts have at their ends that is the same is left out.
fn without_same_end<'a, 'b>(a: &'a [u8], b: &'b [u8]) -> (&'a [u8], &'b [u8]) {
    let same = a
        .iter()
        .rev()
        .zip(b.iter().rev())
        .take_while(|pair| pair.0 == pair.1)
        .count();
    (
        a.get(..a.len().saturating_sub(same)).unwrap_or(&[]),
        b.get(..b.len().saturating_sub(same)).unwrap_or(&[]),
    )
}

/// Whether one wrong, missing or added letter, or a swap of two neighbours, leads from one word to
/// the other; not where they are the same.
pub(crate) fn is_mistyped(word: &[u8], meant: &str) -> bool {
    let (word, meant) = without_same_front(word, meant.as_bytes());
    let (word, meant) = without_same_end(word, meant);
    match (word, meant) {
        ([_], [_]) | ([_], []) | ([], [_]) => true,
        ([a, b], [c, d]) => a == d && b == c,
        _ => false,
    }
}

// What two names have at their fronts, what each has of its own, and what they have at their ends.
struct Difference<'a, 'b> {
    front: &'a [u8],
    own: &'a [u8],
    other: &'b [u8],
    end: &'a [u8],
}

// How two names differ.
fn difference_of<'a, 'b>(name: &'a [u8], other: &'b [u8]) -> Difference<'a, 'b> {
    let (rest, other) = without_same_front(name, other);
    let (own, other) = without_same_end(rest, other);
    Difference {
        front: name
            .get(..name.len().saturating_sub(rest.len()))
            .unwrap_or(&[]),
        own,
        other,
        end: rest.get(own.len()..).unwrap_or(&[]),
    }
}

/// Whether two names differ in a whole part between `_`, as `valve_a` and `valve_b`, or one has a
/// part more.
pub(crate) fn differ_in_part(name: &[u8], other: &[u8]) -> bool {
    let Difference {
        front,
        own,
        other,
        end,
    } = difference_of(name, other);
    let begins = front.is_empty() || front.ends_with(b"_");
    let ends = end.is_empty() || end.starts_with(b"_");
    if own.is_empty() || other.is_empty() {
        let more = if own.is_empty() { other } else { own };
        begins && more.ends_with(b"_") || ends && more.starts_with(b"_")
    } else {
        begins && ends
    }
}

/// How many letters the part of a name between `_` has in which it differs from another; all of its
/// letters where they differ in a `_`.
pub(crate) fn differing_letters(name: &[u8], other: &[u8]) -> usize {
    let Difference {
        front,
        own,
        other,
        end,
    } = difference_of(name, other);
    if own.contains(&b'_') || other.contains(&b'_') {
        return name.len();
    }
    let before = front.iter().rev().take_while(|byte| **byte != b'_').count();
    let behind = end.iter().take_while(|byte| **byte != b'_').count();
    before.saturating_add(own.len()).saturating_add(behind)
}
