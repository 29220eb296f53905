// The plain sum: additions left to right from +0.0.
ghost use Rattle.std.specs.Prelude.{◌≡◌};
ghost use Rattle.moment.specs.Sums.{sum_of, itself};

pub fn sum(x: &[f64]) -> f64
    ensures { result ≡ sum_of itself x.now }
{
    x.iter().fold(0.0, |t, x| t + x)
}
