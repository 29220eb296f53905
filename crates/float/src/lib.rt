// 64-bit floats: the one NaN that figures are written with, the finiteness test, the way between a float and its bits for every
// pattern, and readings that are lent as bytes. Contracts are in the logic's own IEEE 754 (lib.Ieee), where there is one NaN.
#![tactic(auto)]

ghost use Rattle.std.specs.Prelude.{◌≡◌};
ghost use Rattle.std.specs.Float.{nan, binary64};
ghost use Rattle.std.specs.Float.Ieee.{of_bits, to_bits};
ghost use Rattle.std.specs.Float.Ieee.Scale.{finite};
ghost use Rattle.float.specs.Bytes.{decoded_into};

// The constant has the bits 7FF8000000000000. A NaN that arithmetic makes at run time has other bits on x86-64.
pub fn not_a_number() -> f64
    ensures { result ≡ nan }
{
    f64::NAN
}

// x, with the one pattern for a NaN: a figure that `moments` hands out goes through this, or is written so (`rolling`'s rows).
#[tactic(auto, using(crate::proofs::Patterns::only_nan))]
pub fn canonical(x: f64) -> f64
    ensures { result ≡ x }
{
    if x.is_nan() { not_a_number() } else { x }
}

// Neither a NaN nor an infinity.
pub fn is_finite(x: f64) -> bool
    ensures { result ≡ finite x }
{
    x.is_finite()
}

// The float of any pattern of bits; `f64::from_bits` leaves a NaN's pattern undefined.
pub fn from_bits(n: u64) -> f64
    ensures { result ≡ of_bits binary64 n }
{
    std::num::f64_from_bits_with_nan(n)
}

// The bits of any float, those of the one NaN being 7FF8000000000000.
pub fn to_bits(x: f64) -> u64
    ensures { result ≡ to_bits binary64 x }
{
    std::num::f64_to_bits_with_nan(x)
}

// As many readings as both lists hold are decoded, from the first on. By a zip of `iter_mut` the contract is not proved: of what it lends
// std says no values.
pub fn decode(trace: &[u8], readings: &mut [f64])
    ensures { readings.new ≡ decoded_into trace.now readings.old }
{
    let (words, _) = trace.as_chunks::<8>();
    let n = words.len().min(readings.len());
    for (i, reading) in readings[..n].iter_mut().enumerate() {
        *reading = from_bits(u64::from_le_bytes(words[i]));
    }
}
