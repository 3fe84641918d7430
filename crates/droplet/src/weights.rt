ghost use Rattle.std.specs.Prelude.{◌≡◌, ℕ, ◌+◌, ◌*◌, ◌/◌, ◌^◌, ◌≤◌, ◌<◌, length, get_or};
ghost use Rattle.droplet.specs.PoolCard.{weight_at, first_weights, weight_sum};

use field::bytes;

// The weight of degree `i + 1`.
pub fn weight(weights: &[u8], i: usize) -> u32
    requires { i * 4 + 4 ≤ length weights.now }
    ensures { result ≡ weight_at weights.now i }
{
    bytes::number_at(weights, i * 4)
}

// The sum of all weights, where that of the first ones is known.
fn sum_rest(weights: &[u8], known: usize, first: u64) -> u64
    requires weights_len_bound { (length weights.now ≤ 4096) × (known ≤ length weights.now / 4) }
    requires first_value { (first ≡ first_weights weights.now known) × (first ≤ 2 ^ 45) }
    ensures { result ≡ weight_sum weights.now }
{
    let mut sum = first;
    for i in known..weights.len() / 4 {
        sum += u64::from(weight(weights, i));
    }
    sum
}

// Adds a row, 64 bytes of 16 weights, to the lanes: each byte to one of 16 bits, which has room for 257 rows. The compiler adds
// eight lanes with one instruction.
fn add_row(lanes: &mut [u16; 64], row: &[u8])
    requires row_len { length row.now ≡ 64 }
    requires by_index { (k : ℕ) → k < 64 → get_or lanes.old k 0 ≤ 65280 }
    ensures { (k : ℕ) → k < 64 → get_or lanes.new k 0 ≡ get_or lanes.old k 0 + get_or row.now k 0 }
{
    for (i, &b) in row.iter().enumerate() {
        lanes[i] += u16::from(b);
    }
}

// The sums of each lane over all whole rows.
fn sum_rows(weights: &[u8]) -> [u16; 64]
    requires { length weights.now ≤ 4096 }
    ensures { first_weights result 16 ≡ first_weights weights.now (length weights.now / 64 * 16) }
{
    let mut lanes = [0; 64];
    for row in weights.chunks_exact(64) {
        add_row(&mut lanes, row);
    }
    lanes
}

// The number of four lanes, as of four bytes; a lane may pass 255, so that `from_be_bytes` does not serve.
fn join_lanes(four: &[u16]) -> u64
    requires { length four.now ≡ 4 }
    ensures { (result ≡ weight_at four.now 0) × (result < 2 ^ 41) }
{
    ((u64::from(four[0]) * 256 + u64::from(four[1])) * 256 + u64::from(four[2])) * 256
        + u64::from(four[3])
}

// The sum of the lanes' 16 weights.
fn sum_lanes(lanes: &[u16; 64]) -> u64
    ensures { (result ≡ first_weights lanes.now 16) × (result ≤ 2 ^ 45) }
{
    let mut sum = 0;
    for four in lanes.chunks_exact(4) {
        sum += join_lanes(four);
    }
    sum
}

// The sum of all weights. It may pass 32 bits: whether it does is for the caller to ask. Where they are many, whole rows are summed by
// lanes and only the rest one by one: with 1,024 weights that takes two fifths of the time.
pub fn sum_weights(weights: &[u8]) -> u64
    requires { length weights.now ≤ 4096 }
    ensures { result ≡ weight_sum weights.now }
{
    let rows = weights.len() / 64;
    if rows < 4 {
        return sum_rest(weights, 0, 0);
    }
    let lanes = sum_rows(weights);
    sum_rest(weights, rows * 16, sum_lanes(&lanes))
}
