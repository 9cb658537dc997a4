use ix_num::{Decimal, NumberFault, Wide, compare_fractions, gcd, round_div, whole_root};
use std::cmp::Ordering;

/// 10^9 in units of 10^-12, the most that a decimal may be.
const LIMIT: i128 = 1_000_000_000_000_000_000_000;

const MOST: i128 = i128::MAX;

const LEAST: i128 = i128::MIN;

/// Decimals, and what is read of each.
const UNITS: [(&str, Result<i128, NumberFault>); 22] = [
    ("1000.", Ok(1_000_000_000_000_000)),
    ("0.4", Ok(400_000_000_000)),
    ("1.", Ok(1_000_000_000_000)),
    ("1.E-5", Ok(10_000_000)),
    ("-0.5", Ok(-500_000_000_000)),
    ("+2", Ok(2_000_000_000_000)),
    ("1.5E3", Ok(1_500_000_000_000_000)),
    ("1.5e+3", Ok(1_500_000_000_000_000)),
    ("2.5E-13", Ok(0)),
    ("4.9E-13", Ok(0)),
    ("5.E-13", Ok(1)),
    ("-5.E-13", Ok(-1)),
    ("1.5E-12", Ok(2)),
    ("0.0000000000015", Ok(2)),
    ("1000000000.", Ok(LIMIT)),
    ("-1000000000.", Ok(-LIMIT)),
    ("1000000000.0000000000004", Ok(LIMIT)),
    ("1000000000.0000000000005", Err(NumberFault::TooLarge)),
    ("-1000000000.0000000000005", Err(NumberFault::TooLarge)),
    ("0.E999999999999999999999999999999999999999999", Ok(0)),
    (
        "1.E99999999999999999999999999999999999999999",
        Err(NumberFault::TooLarge),
    ),
    ("1.E-99999999999999999999999999999999999999", Ok(0)),
];

#[test]
fn reads_units(rt: HostRuntime) {
    for (text, units) in &UNITS {
        assert!(rt; Decimal::read(text.as_bytes()) == *units, "at {text}");
    }
}

/// Two numbers and their greatest common divisor.
const DIVISORS: [(i128, i128, i128); 6] = [
    (0, 0, 0),
    (0, -5, 5),
    (12, 18, 6),
    (-12, 18, 6),
    (1, 7, 1),
    (1 << 100, 1 << 90, 1 << 90),
];

#[test]
fn finds_divisors(rt: HostRuntime) {
    for (a, b, divisor) in &DIVISORS {
        assert!(rt; gcd(*a, *b) == *divisor, "at {a} and {b}");
    }
}

/// A numerator and a denominator.
type Fraction = (i128, i128);

/// Two fractions, and the order in which they stand.
const FRACTIONS: [(Fraction, Fraction, Ordering); 11] = [
    ((1, 2), (1, 2), Ordering::Equal),
    ((1, 2), (2, 4), Ordering::Equal),
    ((-1, 2), (1, 2), Ordering::Less),
    ((1, 3), (-1, 2), Ordering::Greater),
    ((-1, 2), (-1, 3), Ordering::Less),
    ((0, 5), (0, 7), Ordering::Equal),
    ((0, 5), (-1, 7), Ordering::Greater),
    ((355, 113), (22, 7), Ordering::Less),
    // The cross products differ by one, and are about 2^252 and 2^254.
    (
        (1 << 126, (1 << 126) - 1),
        ((1 << 126) + 1, 1 << 126),
        Ordering::Greater,
    ),
    ((LEAST, MOST), (-1, 1), Ordering::Less),
    ((MOST, MOST - 1), (MOST - 1, MOST - 2), Ordering::Less),
];

/// Whether two fractions stand in an order, and the other way round in the reverse of it.
fn are_in_order(a: Fraction, b: Fraction, order: Ordering) -> bool {
    a.1 > 0
        && b.1 > 0
        && compare_fractions(a.0, a.1, b.0, b.1) == order
        && compare_fractions(b.0, b.1, a.0, a.1) == order.reverse()
}

#[test]
fn compares_fractions(rt: HostRuntime) {
    for (a, b, order) in &FRACTIONS {
        assert!(rt; are_in_order(*a, *b, *order), "at {a:?} and {b:?}");
    }
}

/// Numbers and their roots, rounded down.
const ROOTS: [(i128, i128); 8] = [
    (0, 0),
    (1, 1),
    (3, 1),
    (4, 2),
    (
        2_999_999_999_999_999_999_999_999_999_999_999_999,
        1_732_050_807_568_877_293,
    ),
    (
        1_000_000_000_000_000_000_000_000_000_000_000_000,
        1_000_000_000_000_000_000,
    ),
    (
        999_999_999_999_999_999_999_999_999_999_999_999,
        999_999_999_999_999_999,
    ),
    (MOST, 13_043_817_825_332_782_212),
];

#[test]
fn finds_roots(rt: HostRuntime) {
    for (n, root) in &ROOTS {
        assert!(rt; whole_root(*n) == *root, "at {n}");
    }
}

/// Fractions and the nearest whole numbers.
const NEAREST: [(i128, i128, i128); 7] = [
    (1, 2, 1),
    (-1, 2, 0),
    (-3, 2, -1),
    (3, 2, 2),
    (7, 3, 2),
    (-7, 3, -2),
    (5, 1, 5),
];

#[test]
fn rounds_a_half_up(rt: HostRuntime) {
    for (a, b, nearest) in &NEAREST {
        assert!(rt; round_div(*a, *b) == *nearest, "at {a} / {b}");
    }
}

fn total_of(numbers: &[i128]) -> Option<i128> {
    let mut sum = Wide::zero();
    for v in numbers {
        sum.add(*v);
    }
    sum.total()
}

/// Numbers and their sums, where those have 128 bits.
const SUMS: [(&[i128], Option<i128>); 6] = [
    (&[MOST, MOST, -MOST, -MOST], Some(0)),
    (&[MOST, 1], None),
    (&[MOST, 1, -1], Some(MOST)),
    (&[LEAST], Some(LEAST)),
    (&[LEAST, -1], None),
    (&[MOST, MOST, MOST, LEAST, LEAST, LEAST], Some(-3)),
];

#[test]
fn sums_pass_128_bits(rt: HostRuntime) {
    for (numbers, total) in &SUMS {
        assert!(rt; total_of(numbers) == *total, "of {numbers:?}");
    }
}
