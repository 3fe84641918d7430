ghost use Rattle.std.specs.Prelude.{◌≤◌, length, IfOk};
ghost use Rattle.listing.specs.Loops.{Read, Came, Lists};

use crate::tally::{Pool, Tally};
use std::io;

// Goes through the bytes that a read of standard input brought into `chunk`: the tally after them, or that nothing follows. A read that a
// signal stopped before its first byte is tried again; any other failure ends the input, and is named on standard error.
fn take_read(
    rt: &impl Eprint,
    got: io::Result<usize>,
    pool: Pool<'_>,
    chunk: &[u8],
    line: &mut [u8],
    store: &mut [u8],
    t: Tally,
) -> Option<Tally>
    requires within { t.held ≤ length line.old }
    requires fits { IfOk got (λ n. n ≤ length chunk.now) }
    ensures { Read pool.entry.card pool.entry.weights.now got chunk.now t line.old store.old result line.new store.new }
{
    match got {
        Ok(0) => None,
        Ok(n) => Some(pool.add_bytes(&chunk[..n], line, store, t)),
        Err(e) if e.kind() == io::ErrorKind::Interrupted => Some(t),
        Err(e) => {
            let _ = eprintln!(rt; "standard input: {e}");
            None
        }
    }
}

// Reads to the end of standard input. A proved loop has to end, and nothing says that an input does: its turns are as many as no run
// uses up.
fn read_all(
    rt: &impl Eprint,
    input: &mut impl io::Read,
    pool: Pool<'_>,
    chunk: &mut [u8],
    line: &mut [u8],
    store: &mut [u8],
    mut t: Tally,
) -> Tally
    requires { t.held ≤ length line.old }
    ensures { Came pool.entry.card pool.entry.weights.now t line.old store.old result line.new store.new }
{
    for _ in 0..u64::MAX {
        let got = input.read(chunk);
        let Some(next) = take_read(rt, got, pool, chunk, line, store, t) else {
            return t;
        };
        t = next;
    }
    t
}

// Offers the lines of standard input to an empty store. The buffer `line` is longer than any strand.
pub fn list_reads(
    rt: &impl Eprint,
    input: &mut impl io::Read,
    pool: Pool<'_>,
    chunk: &mut [u8],
    line: &mut [u8],
    store: &mut [u8],
) -> Tally
    requires { 289 ≤ length line.old }
    ensures { Lists pool.entry.card pool.entry.weights.now store.old result store.new }
{
    let t = read_all(rt, input, pool, chunk, line, store, Tally::default());
    pool.end_input(line, store, t)
}
