// The bytes of a file, interleaved or put back in order (document 02's dealing and undealing). One direction is the other with source
// and target changed about, so one code serves both. `back` is a flag and no closure: there is one switch on it, in `move_strided`, and
// `reordered` of the specs takes it.
ghost use Rattle.std.specs.Prelude.{◌≡◌, ◌++◌, ◌≤◌, ◌<◌, ◌^◌, length, take, drop};
ghost use Rattle.interleave.specs.Interleaving.{reordered};
ghost use Rattle.interleave.specs.Moves.{Moved, FileMoved, strided, Fits, StridedMoved, InLines, Lines};

// Places that stand `step` apart, from the first on.
#[derive(Debug, Clone, Copy, PartialEq, Eq)]
struct Strided {
    first: usize,
    step: usize,
}

// Copies `count` bytes.
fn copy_strided(count: usize, to: Strided, from: Strided, source: &[u8], target: &mut [u8])
    requires { (Fits count to.first to.step target.old) × (Fits count from.first from.step source.now) }
    ensures { Moved (strided to.first to.step) (strided from.first from.step) (λ x. x < count) source.now target.old target.new }
{
    // Moved on by hand: worked out from the turn's number for each byte, a file of less than eight lines takes a quarter longer to put back.
    let mut t = to.first;
    let mut s = from.first;
    for _ in 0..count {
        target[t] = source[s];
        t += to.step;
        s += from.step;
    }
}

// A block interleaver, in one of its directions. Its methods move bytes of a file between two buffers of the file's length. The buffers are
// no fields: with a `&mut` field each contract would have to say that the source stays as it was, which `&[u8]` says by itself.
#[derive(Debug, Clone, Copy, PartialEq, Eq)]
struct Interleaver {
    back: bool,
    width: usize,
    ghost least: { 1 ≤ width },
    ghost small: { width < 2 ^ 32 },
}

impl Interleaver {
    // `count` bytes, by their places in the file and in the interleaved file.
    fn move_strided(
        self,
        count: usize,
        file: Strided,
        interleaved: Strided,
        source: &[u8],
        target: &mut [u8],
    )
        requires { (Fits count file.first file.step source.now) × (Fits count file.first file.step target.old) × (Fits count interleaved.first interleaved.step source.now) × (Fits count interleaved.first interleaved.step target.old) }
        ensures { StridedMoved self.back count file.first file.step interleaved.first interleaved.step source.now target.old target.new }
    {
        if self.back {
            copy_strided(count, file, interleaved, source, target);
        } else {
            copy_strided(count, interleaved, file, source, target);
        }
    }

    // `lines` lines, from line `line` on, column by column.
    fn move_lines(self, line: usize, lines: usize, source: &[u8], target: &mut [u8])
        requires { (Lines self.width (length source.now) line lines self.width) × (length target.old ≡ length source.now) }
        ensures { FileMoved self.back self.width (length source.now) (InLines self.width line lines self.width) source.now target.old target.new }
    {
        let whole = source.len() / self.width;
        let more = source.len() % self.width;
        let first = line * self.width;
        for r in 0..self.width {
            let file = Strided {
                first: first + r,
                step: self.width,
            };
            let interleaved = Strided {
                first: r * whole + r.min(more) + line,
                step: 1,
            };
            self.move_strided(lines, file, interleaved, source, &mut *target);
        }
    }

    // The first `columns` bytes of one line, in order. In the interleaved file each stands a column further on than the one before it,
    // and the columns that the last line reaches are a byte longer than the others.
    fn move_line(self, line: usize, columns: usize, source: &[u8], target: &mut [u8])
        requires { (Lines self.width (length source.now) line 1 columns) × (length target.old ≡ length source.now) }
        ensures { FileMoved self.back self.width (length source.now) (InLines self.width line 1 columns) source.now target.old target.new }
    {
        let whole = source.len() / self.width;
        let longer = columns.min(source.len() % self.width);
        let file = Strided {
            first: line * self.width,
            step: 1,
        };
        let interleaved = Strided {
            first: line,
            step: whole + 1,
        };
        self.move_strided(longer, file, interleaved, source, &mut *target);
        let file = Strided {
            first: file.first + longer,
            step: 1,
        };
        let interleaved = Strided {
            first: longer * whole + longer + line,
            step: whole,
        };
        self.move_strided(columns - longer, file, interleaved, source, target);
    }

    // Some whole lines. A single one is moved in order, for each of its columns has one byte, and to begin a column costs more than that.
    fn move_band(self, line: usize, lines: usize, source: &[u8], target: &mut [u8])
        requires { (Lines self.width (length source.now) line lines self.width) × (length target.old ≡ length source.now) }
        ensures { FileMoved self.back self.width (length source.now) (InLines self.width line lines self.width) source.now target.old target.new }
    {
        if lines == 1 {
            self.move_line(line, self.width, source, target);
        } else {
            self.move_lines(line, lines, source, target);
        }
    }

    // How many lines are moved at once: so few that the bytes beside one column's are still in the cache when the next column takes them.
    // About 8,192 bytes; of wide lines eight, for a cache keeps only some eight pieces of memory whose places are a large power of two
    // apart. Of a file that has fewer than eight whole lines one, for its columns are so short that to begin each would cost more than
    // its bytes. The result does not depend on it.
    fn lines_at_once(self, whole: usize) -> usize
        ensures { 1 ≤ result }
    {
        if whole < 8 {
            1
        } else if self.width < 1024 {
            8192 / self.width
        } else {
            8
        }
    }

    // All bytes of a file.
    fn move_file(self, source: &[u8], target: &mut [u8])
        requires short { length source.now < 2 ^ 32 }
        requires same_length { length target.old ≡ length source.now }
        ensures { target.new ≡ reordered self.back self.width source.now }
    {
        let whole = source.len() / self.width;
        let most = self.lines_at_once(whole);
        for line in (0..whole).step_by(most) {
            let lines = most.min(whole - line);
            self.move_band(line, lines, source, &mut *target);
        }
        // the last line, which is short or empty
        self.move_line(whole, source.len() % self.width, source, target);
    }
}

// The first `f` bytes of `source` are interleaved into `target`, or put back in order.
pub fn move_bytes(back: bool, width: u32, f: u32, source: &[u8], target: &mut [u8])
    requires { (1 ≤ width) × (f ≤ length source.now) × (f ≤ length target.old) }
    ensures { target.new ≡ reordered back width (take f source.now) ++ drop f target.old }
{
    let n = f as usize;
    let interleaver = Interleaver {
        back,
        width: width as usize,
    };
    interleaver.move_file(&source[..n], &mut target[..n]);
}
