//! How fast fractions are added and multiplied. The words behind the first are a count of rounds of
//! sums and one of products; it writes a checksum of the results, and the time is taken from outside.
use ps_frac::{Fraction, Wide};
use std::alloc::Global;
use std::env;

/// How many fractions the rounds go over.
const COUNT: u64 = 1024;

/// Small fractions, drawn from a fixed sequence.
#[derive(Drop)]
struct Draw {
    state: u64,
}

impl Draw {
    /// The next number of the sequence.
    fn next(&mut self) -> u64 {
        self.state = self
            .state
            .wrapping_mul(6364136223846793005)
            .wrapping_add(1442695040888963407);
        self.state >> 33
    }

    /// A numerator from -999 to 999 over a denominator from 1 to 999.
    fn fraction(&mut self) -> Fraction {
        let over = (self.next() % 1999) as i128;
        let under = (self.next() % 999) as i128;
        Fraction::new(over - 999, under + 1)
    }
}

/// The fractions that the rounds go over.
fn fractions(alloc: Global) -> anyhow::Result<Vec<Fraction>> {
    let mut draw = Draw { state: 1 };
    let mut list = Vec::new(alloc);
    for _ in 0..COUNT {
        list.push(draw.fraction())?;
    }
    Ok(list)
}

/// What is kept of a sequence of results.
fn mix(sum: u64, answer: &Fraction) -> u64 {
    let over = answer.numerator().unsigned_abs() & 0xFFFF_FFFF;
    let under = answer.denominator().unsigned_abs() & 0xFFFF_FFFF;
    sum.wrapping_mul(31)
        .wrapping_add(over as u64)
        .wrapping_add(under as u64)
}

/// A checksum of what an operation makes of neighbours, going round.
fn checksum<F>(list: &[Fraction], rounds: u64, operation: F) -> u64
where
    F: Fn(&Fraction, &Fraction) -> Result<Fraction, Wide>,
    requires { F.IsAlwaysCallable operation }
{
    let mut checksum = 0u64;
    let mut left = 0usize;
    let mut right = 0usize;
    for _ in 0..rounds {
        if left >= list.len() {
            left = 0;
        }
        if right >= list.len() {
            right = 0;
        }
        if left < list.len() && right < list.len() {
            if let Ok(answer) = operation(&list[left], &list[right]) {
                checksum = mix(checksum, &answer);
            }
        }
        left = left.wrapping_add(1);
        right = right.wrapping_add(7);
    }
    checksum
}

/// How many rounds of sums and of products the words ask for.
fn rounds_of(rt: &HostRuntime) -> anyhow::Result<[u64; 2]> {
    let mut rounds = [1000u64, 1000u64];
    let mut place = 0usize;
    for word in env::args(rt)? {
        if place > 1 && place <= 3 {
            if let Ok(count) = word.parse::<u64>() {
                rounds[place - 2] = count;
            }
        }
        place = place.wrapping_add(1);
    }
    Ok(rounds)
}

/// Adds and multiplies, and writes the checksums.
pub fn time_fractions(rt: &HostRuntime) -> anyhow::Result<()> {
    let rounds = rounds_of(rt)?;
    let list = fractions(rt.alloc())?;
    let sums = checksum(&list, rounds[0], |left, right| left.add(right));
    let products = checksum(&list, rounds[1], |left, right| left.mul(right));
    println!(rt; "sums {sums}")?;
    println!(rt; "products {products}")?;
    Ok(())
}
