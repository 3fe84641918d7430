ghost use Rattle.std.specs.Prelude.{◌≡◌, ◌+◌, ◌≤◌, ◌++◌, length, take, drop};
ghost use Rattle.field.specs.Bytes.{from_big_endian};

// The number that the four bytes from a place on spell, the most significant first.
pub fn number_at(bytes: &[u8], at: usize) -> u32
    requires { at + 4 ≤ length bytes.now }
    ensures { result ≡ from_big_endian (take 4 (drop at bytes.now)) }
{
    u32::from_be_bytes([bytes[at], bytes[at + 1], bytes[at + 2], bytes[at + 3]])
}

// Copies bytes to the start of a buffer. Not by `copy_from_slice`, for which the compiler calls memmove where it cannot tell that the two
// are apart: a C host that links the archives gives them memcpy and memset alone (include/fountain.h).
pub fn copy(from: &[u8], to: &mut [u8])
    requires { length from.now ≤ length to.old }
    ensures { to.new ≡ from.now ++ drop (length from.now) to.old }
{
    for (i, &b) in from.iter().enumerate() {
        to[i] = b;
    }
}

// Copies bytes to the start of a buffer, and others behind them: as `copy`, of two.
pub fn copy_both(front: &[u8], back: &[u8], to: &mut [u8])
    requires { length front.now + length back.now ≤ length to.old }
    ensures { to.new ≡ front.now ++ (back.now ++ drop (length front.now + length back.now) to.old) }
{
    let start = front.len();
    copy(front, &mut *to);
    copy(back, &mut to[start..]);
}
