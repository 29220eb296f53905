// Replays the answers of the Rust, of pairs those of the account over its states and of variance also the lowest and the highest reading,
// stored in data/, and says for each kind how many agree.
//
// The lists were made by `words 1 crates/vectors/data` of oracle/ (seed 1), whose FORMAT.md, 'Word
// lists', has the form; that command makes them again. What a file gives is not known to a
// contract, so what this program prints is tested, not proved.
#![tactic(auto)]

use std::alloc::AllocError;
use std::io;
use std::rt::Files;

mod arrays;
mod states;
mod windows;
mod words;

use words::{Record, Records};

fn root(rec: Record) -> bool {
    rec.is(2, moments::moments_root(rec.get(1)))
}

// How many records of a list agree, and how many it has: its first word.
fn tally<R: Files + AllocGlobal, F: Fn(Record) -> Result<bool, AllocError>>(
    rt: &R,
    name: &str,
    agrees: F,
) -> io::Result<(u64, u64)>
    requires { F.IsAlwaysCallable agrees }
{
    let alloc = rt.alloc();
    let list = words::read(rt, name)?;
    let (words, _) = list.as_slice().as_chunks();
    let Some((first, words)) = words.split_first() else {
        return Ok((0, 0));
    };
    let records = words::number(first);
    let mut agreed = 0;
    for rec in (Records { alloc, words }).take(records as usize) {
        if agrees(rec)? {
            agreed += 1;
        }
    }
    Ok((agreed, records))
}

// A list that cannot be read is named with the reason, and the next one's turn comes.
fn replay<R: Files + AllocGlobal + Print + Eprint, F: Fn(Record) -> Result<bool, AllocError>>(
    rt: &R,
    name: &str,
    agrees: F,
) -> io::Result<()>
    requires { F.IsAlwaysCallable agrees }
{
    match tally(rt, name, agrees) {
        Ok((agreed, records)) => println!(rt; "{name} {agreed} of {records} agree"),
        Err(error) => eprintln!(rt; "{name}: {error}"),
    }
}

fn main(rt: HostRuntime) -> io::Result<()> {
    replay(&rt, "root", |rec| Ok(root(rec)))?;
    replay(&rt, "new", arrays::new)?;
    replay(&rt, "insert", |rec| Ok(states::insert(rec)))?;
    replay(&rt, "combine", |rec| Ok(states::combine(rec)))?;
    replay(&rt, "finalize", |rec| Ok(states::finalize(rec)))?;
    replay(&rt, "whole", arrays::whole)?;
    replay(&rt, "range", arrays::range)?;
    replay(&rt, "plan", windows::plan)?;
    replay(&rt, "fixed", windows::fixed)?;
    replay(&rt, "weighted", windows::fixed)?;
    replay(&rt, "bounds", |rec| Ok(windows::bounds(rec)))?;
    replay(&rt, "paired", windows::paired)?;
    replay(&rt, "paired_fixed", windows::paired_fixed)
}
