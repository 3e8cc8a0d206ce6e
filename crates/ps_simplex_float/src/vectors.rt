//! Sums over rows of floats. Where two lengths differ, the further entries of the longer take no part.

/// The product of two rows, in four sums that don't wait for each other.
pub(crate) fn dot(a: &[f64], b: &[f64]) -> f64 {
    let mut sums = [0.0; 4];
    let a_fours = a.chunks_exact(4);
    let b_fours = b.chunks_exact(4);
    let mut rest = 0.0;
    for (x, y) in a_fours.remainder().iter().zip(b_fours.remainder()) {
        rest += x * y;
    }
    for (xs, ys) in a_fours.zip(b_fours) {
        for (sum, (x, y)) in sums.iter_mut().zip(xs.iter().zip(ys)) {
            *sum += x * y;
        }
    }
    let [first, second, third, fourth] = sums;
    (first + second) + (third + fourth) + rest
}

/// Adds a multiple of a row.
pub(crate) fn add_multiple(target: &mut [f64], factor: f64, row: &[f64]) {
    for (x, y) in target.iter_mut().zip(row) {
        *x += factor * y;
    }
}

/// Multiplies a row.
pub(crate) fn scale(target: &mut [f64], factor: f64) {
    for x in target.iter_mut() {
        *x *= factor;
    }
}

/// Writes a row over another.
pub(crate) fn copy<T: Copy>(target: &mut [T], row: &[T]) {
    for (x, y) in target.iter_mut().zip(row) {
        *x = *y;
    }
}

/// Sets an entry, where it is there.
pub(crate) fn set(entries: &mut [f64], place: usize, entry: f64) {
    if let Some(x) = entries.get_mut(place) {
        *x = entry;
    }
}
