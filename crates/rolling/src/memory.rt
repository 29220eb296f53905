// How entries and states of a window lie in the work slice, one behind another.
ghost use Rattle.std.proofs.Common.{rules};
ghost use Rattle.std.specs.Prelude.{◌≡◌, ℕ, ◌+◌, ◌<◌, ◌≤◌, length, drop, refl, Float};
ghost use lib.Seq.{sets};
ghost use Rattle.window.specs.Code.Memory.{Layout, reading, pair};

// A value of WIDTH doubles. An `impl` names its members in `store` and in `load`: an array of them, as `From` gives, would be made only to
// be copied, and `load` would name them all the same.
pub(crate) trait InMemory: Copy {
    ghost WIDTH: { ℕ };

    const WIDTH: usize;

    ghost layout: { Layout Float Self };

    fn store(self, work: &mut [f64], at: usize)
        requires { at + layout.width ≤ length work.old }
        ensures { work.new ≡ sets work.old at (layout.store self) };

    fn load(work: &[f64], at: usize) -> Self
        requires { at + layout.width ≤ length work.now }
        ensures { result ≡ layout.load (drop at work.now) };

    ghost wide: { layout.width ≡ WIDTH };

    ghost some: { 0 < WIDTH };

    ghost narrow: { WIDTH < 256 };
}

// A reading.
impl InMemory for f64 {
    ghost WIDTH = { 1 };

    const WIDTH: usize = 1;

    ghost layout = { reading };

    fn store(self, work: &mut [f64], at: usize) {
        work[at] = self;
    }

    fn load(work: &[f64], at: usize) -> Self {
        work[at]
    }

    ghost wide = { refl };

    ghost some = { Prim.search rules };

    ghost narrow = { Prim.search rules };
}

// A pair of readings.
impl InMemory for (f64, f64) {
    ghost WIDTH = { 2 };

    const WIDTH: usize = 2;

    ghost layout = { pair };

    fn store(self, work: &mut [f64], at: usize) {
        work[at] = self.0;
        work[at + 1] = self.1;
    }

    fn load(work: &[f64], at: usize) -> Self {
        (work[at], work[at + 1])
    }

    ghost wide = { refl };

    ghost some = { Prim.search rules };

    ghost narrow = { Prim.search rules };
}
