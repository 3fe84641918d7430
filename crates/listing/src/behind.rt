ghost use Rattle.std.specs.Prelude.{◌≡◌, ◌%◌, ◌^◌};
ghost use Rattle.decoder.specs.Store.{records};
ghost use Rattle.decoder.specs.StoreLoops.{Within};
ghost use Rattle.decoder.specs.Demand3.{total_count};

use decoder::records::{count_in, record_at};

// How many reads are behind all records of a store together, modulo 2^64 as the tally's numbers are. A count has four bytes, the sum eight.
// Store, L and count are handed in one by one, as in the decoder's store.
pub fn total_behind(store: &[u8], l: usize, count: usize) -> u64
    requires { Within l count store.now }
    ensures { result ≡ total_count (records l count store.now) % 2 ^ 64 }
{
    let mut total: u64 = 0;
    for i in 0..count {
        let behind = count_in(record_at(store, l, i), l);
        total = total.wrapping_add(u64::from(behind));
    }
    total
}
