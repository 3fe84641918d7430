ghost use Rattle.std.specs.Prelude.{◌≡◌, ◌++◌, ◌+◌, ◌≤◌, length, drop};
ghost use Rattle.field.specs.Bytes.{to_big_endian};
ghost use Rattle.strand.specs.ReadCheck.{word_seed};

use field::bytes;

// The seed with which a droplet's bytes start: those of a strand's word, and of a record.
pub fn seed_of(word: &[u8]) -> u32
    requires { 4 ≤ length word.now }
    ensures { result ≡ word_seed word.now }
{
    bytes::number_at(word, 0)
}

// Writes a droplet, seed and payload, at the start of a buffer.
pub fn put_droplet(seed: u32, payload: &[u8], out: &mut [u8])
    requires { 4 + length payload.now ≤ length out.old }
    ensures { out.new ≡ to_big_endian seed ++ (payload.now ++ drop (4 + length payload.now) out.old) }
{
    bytes::copy_both(&seed.to_be_bytes(), payload, out);
}
