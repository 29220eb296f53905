// Whole arrays: the valid entries in chunks of 128, each made a state by `new` and combined in order.
ghost use Rattle.std.specs.Prelude.{◌≡◌, [], length};
ghost use Rattle.float.specs.Operators.{zero64};
ghost use Rattle.trace.specs.Trace.{valid_from};
ghost use Rattle.moment.specs.Chunks.{in_chunks};
ghost use Rattle.moment.specs.Code.Filling.{Filled};

use crate::entries::{Entry, Places};
use crate::states;
use crate::states::State;

// How many entries a chunk holds. Contracts say the number, as document 01 does, so that another constant is refused where arrays are lent.
pub(crate) const CHUNK_SIZE: usize = 128;

// Where filling stopped: the first place not looked at, and how many entries the chunk holds.
#[derive(Clone, Copy)]
struct Stop {
    place: usize,
    count: usize,
}

// The source's `chunk_as_float` and `chunk_as_float_binary`: fills the chunk with the valid entries from `place` on, 128 or all that are
// left. An entry is stored before its validity is known and counted by it: that has no branch, and a missing one is overwritten by the
// next.
fn fill<P: Places>(places: P, place: usize, chunk: &mut [P::Entry]) -> Stop
    requires { length chunk.old ≡ 128 }
    ensures { Filled (P.valid places) (P.entries places) place result.place result.count chunk.new }
{
    let mut count = 0;
    let end = places.len();
    for at in place..end {
        if count == CHUNK_SIZE {
            return Stop { place: at, count };
        }
        chunk[count] = places.entry(at);
        count += usize::from(places.is_valid(at));
    }
    Stop { place: end, count }
}

// The chunk is lent by those who know what kind of entry it holds: how large an array of any kind is, no proof knows.
pub(crate) fn whole<P: Places, S: State<Entry = P::Entry>>(places: P, chunk: &mut [P::Entry]) -> S
    requires { length chunk.old ≡ 128 }
    ensures { result ≡ in_chunks S.new S.combine (S.about zero64 P.Entry.none [])
        (valid_from (P.valid places) 0 (P.entries places)) }
{
    let mut out = S::about(0.0, P::Entry::none());
    let mut place = 0;
    // no `for`: it goes on where filling stopped
    while place < places.len() {
        let stop = fill(places, place, chunk);
        let count = stop.count;
        out = states::combine(out, states::new(&chunk[..count]));
        place = stop.place;
    }
    out
}
