// The square root of a double, correctly rounded (document 01, "Root"). A guess is checked and rounded in whole numbers; where it is too
// far off, and for numbers that are not normal, the root is found digit by digit.
#![tactic(auto)]

ghost use Rattle.std.specs.Prelude.{◌≡◌, ◌+◌, ◌*◌, ◌/◌, ◌%◌, ◌^◌, ◌<◌, ◌≤◌, ◌↔◌, IsTrue, IfSome, map, length, from_bits};
ghost use Rattle.std.specs.Float.{binary64};
ghost use Rattle.root.specs.declared.TheConstants.{INFINITY};
ghost use Rattle.root.specs.Root.{root as root_of, roots_into, root_of_units, rounded_root};

// The bits of plus infinity: those of the positive finite numbers are below.
const INFINITY: u64 = 0x7ff0000000000000;

// The bits of -0.
const NEG_ZERO: u64 = 0x8000000000000000;

// 2^52: the first of a normal number's 53 digits, and the bits of the smallest normal number.
const FIRST_DIGIT: u64 = 0x10000000000000;

// The whole number nearest to the root of a * 2^42, one binary digit a turn.
fn digits(a: u64) -> u64
    ensures { result ≡ rounded_root 0 (a * 2 ^ 42) }
{
    let mut rest = a;
    let mut root = 0;
    let mut remainder = 0;
    for _ in 0..53u32 {
        let next = remainder * 4 + (rest >> 62);
        rest <<= 2;
        let trial = root * 4 + 1;
        root *= 2;
        remainder = next;
        if trial <= next {
            remainder = next - trial;
            root += 1;
        }
    }
    if remainder > root { root + 1 } else { root }
}

// The bits of the double whose size in units is nearest to the root of m * 2^j. An odd j lends m a factor of 2, so that half
// of what is left is the root's exponent.
fn assemble(m: u64, j: u64) -> u64
    requires { (2 ^ 52 ≤ m) × (m < 2 ^ 53) × (1022 ≤ j) × (j ≤ 3119) }
    ensures { (result < INFINITY) × (from_bits binary64 result ≡ root_of_units (m * 2 ^ j)) }
{
    let odd = j % 2;
    let q = digits((m << odd) * 1024);
    (j / 2 - 26) * FIRST_DIGIT + q
}

// The bits of the root of the positive finite double with the bits b. A subnormal one is normalised first by its
// leading zeros, so that the integer root always has 53 digits.
fn positive(b: u64) -> u64
    requires { (0 < b) × (b < INFINITY) }
    ensures { (result < INFINITY) × (from_bits binary64 result ≡ root_of (from_bits binary64 b)) }
{
    if b < FIRST_DIGIT {
        let shift = u64::from(b.leading_zeros() - 11);
        assemble(b << shift, 1074 - shift)
    } else {
        assemble(b % FIRST_DIGIT + FIRST_DIGIT, 1073 + (b >> 52))
    }
}

// The bits of x, which give it back.
fn bits(x: f64) -> u64
    ensures { from_bits binary64 result ≡ x }
{
    float::to_bits(x)
}

// The root of any double, digit by digit; +0, -0 and plus infinity give themselves, and what has no root gives NaN.
fn longhand(x: f64) -> f64
    ensures { result ≡ root_of x }
{
    match bits(x) {
        0 => x,
        b @ 1..INFINITY => f64::from_bits(positive(b)),
        INFINITY => x,
        NEG_ZERO => x,
        _ => f64::NAN,
    }
}

// A guess at the root of x. Nothing is claimed of it, since `settle` checks it: document 01 names the form of the root, whole numbers
// squared and compared, and a subnormal normalised first, so what std's root says of itself is not used.
fn guess(x: f64) -> f64 {
    x.sqrt()
}

// The whole number nearest to the root of x * 2^52, where that is r or the next number: it is r for what is above r * (r - 1) and at most
// r * (r + 1).
#[tactic(auto, using(crate::proofs::IntegerRoot::rounded_to, crate::proofs::IntegerRoot::rounded_next))]
fn settle(x: u64, r: u64) -> Option<u64>
    requires { (x < 2 ^ 54) × (r < 2 ^ 53) }
    ensures { IfSome result (λ q. (q ≤ r + 1) × (q ≡ rounded_root 0 (x * 2 ^ 52))) }
{
    let n = u128::from(x) << 52;
    let side = u128::from(r);
    let square = side * side;
    if n + side <= square {
        return None;
    }
    if n <= square + side {
        return Some(r);
    }
    if n <= square + side * 3 + 2 {
        return Some(r + 1);
    }
    None
}

// The 53 digits of the normal double with the bits b, with one more where its exponent lends a factor of 2.
// By an `if`, since no method of std takes the low digits of an exponent's parity.
fn radicand(b: u64) -> u64
    ensures { (result < 2 ^ 54) × (result ≡ (b % 2 ^ 52 + 2 ^ 52) * 2 ^ ((1073 + b / 2 ^ 52) % 2)) }
{
    let low = b % (2 * FIRST_DIGIT);
    if low >= FIRST_DIGIT {
        low
    } else {
        low * 2 + 2 * FIRST_DIGIT
    }
}

// Whether b are the bits of a positive normal number.
fn normal(b: u64) -> bool
    ensures { IsTrue result ↔ ((2 ^ 52 ≤ b) × (b < INFINITY)) }
{
    (FIRST_DIGIT..INFINITY).contains(&b)
}

// The root of x by the guess g, which is checked in whole numbers; none where x is not a positive normal number, or g too far off.
fn candidate(x: f64, g: f64) -> Option<f64>
    ensures { IfSome result (λ y. y ≡ root_of x) }
{
    let b = bits(x);
    if !normal(b) {
        return None;
    }
    let base = (((b >> 1) + 0x1fe8000000000000) >> 52) * FIRST_DIGIT;
    let r = bits(g).wrapping_sub(base) % (2 * FIRST_DIGIT);
    let q = settle(radicand(b), r)?;
    Some(f64::from_bits(base + q))
}

// The double nearest to the root of x.
pub fn root(x: f64) -> f64
    ensures { result ≡ root_of x }
{
    candidate(x, guess(x)).unwrap_or_else(|| longhand(x))
}

// The root of each number by its guess; those in doubt are left, and the answer is how many there are, since a list is taken by one
// pass. By a zip of `iter_mut` the contract is not proved, here and in `each`: of what it lends std says no values.
fn candidates(x: &[f64], out: &mut [f64]) -> u64
    requires { length x.now ≡ length out.old }
    ensures { (result ≤ length x.now) × (result ≡ 0 → out.new ≡ map root_of x.now) }
{
    let mut doubts = 0;
    for (i, y) in out.iter_mut().enumerate() {
        match candidate(x[i], guess(x[i])) {
            Some(root) => *y = root,
            None => doubts += 1,
        }
    }
    doubts
}

// The root of each number, one after the other.
fn each(x: &[f64], out: &mut [f64])
    requires { length x.now ≡ length out.old }
    ensures { out.new ≡ map root_of x.now }
{
    for (i, y) in out.iter_mut().enumerate() {
        *y = root(x[i]);
    }
}

// The roots of a list, written to one of the same length; one of another length stays as it is. Only where one is in doubt each is
// taken by itself.
#[tactic(auto, unfolding(crate::specs::Root::roots_into))]
pub fn roots(x: &[f64], out: &mut [f64])
    ensures { out.new ≡ roots_into x.now out.old }
{
    if x.len() != out.len() {
        return;
    }
    if candidates(x, out) != 0 {
        each(x, out);
    }
}
