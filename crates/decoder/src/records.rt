#![tactic(auto, unfolding(crate::specs::Store::record_bytes, crate::specs::Store::record_payload, crate::specs::Store::record_state, crate::specs::Store::record_count, crate::specs::Loops::record_at))]

ghost use Rattle.std.specs.Prelude.{◌≡◌, ◌++◌, ◌+◌, ◌*◌, ◌≤◌, length, drop};
ghost use Rattle.field.specs.Bytes.{to_big_endian};
ghost use Rattle.decoder.specs.Store.{record_bytes, evidence_text, record_text, record_payload, record_state, record_count, evidence_place, count_place, overwritten};
ghost use Rattle.decoder.specs.Loops.{record_at};

use field::bytes::{copy, copy_both, number_at};

// How wide a record is, and where its parts stand: the one place that knows. The seed comes first, as in a strand's word.

// L is handed in beside the bytes, and no type holds both: docs/DECISIONS.md names this module (32), so what its functions ask may not change.

// A record's bytes: seed, payload, state and count.
pub fn record_bytes(l: usize) -> usize
    requires { l ≤ 64 }
    ensures { result ≡ record_bytes l }
{
    9 + l
}

// Record `i` of the store.
pub fn record_at(store: &[u8], l: usize, i: usize) -> &[u8]
    requires { (l ≤ 64) × (i * record_bytes l + record_bytes l ≤ length store.now) }
    ensures { result.now ≡ record_at l store.now i }
{
    let width = record_bytes(l);
    let at = i * width;
    &store[at..at + width]
}

// The payload of the record with which some bytes start.
pub fn payload_in(bytes: &[u8], l: usize) -> &[u8]
    requires { (l ≤ 64) × (record_bytes l ≤ length bytes.now) }
    ensures { result.now ≡ record_payload l bytes.now }
{
    &bytes[4..4 + l]
}

// The state byte of the record with which some bytes start. A number: the byte is the record's, as the C host reads it (README).
pub fn state_in(bytes: &[u8], l: usize) -> u8
    requires { (l ≤ 64) × (record_bytes l ≤ length bytes.now) }
    ensures { result ≡ record_state l bytes.now }
{
    bytes[4 + l]
}

// The count of the record with which some bytes start: how many reads are behind it.
pub fn count_in(bytes: &[u8], l: usize) -> u32
    requires { (l ≤ 64) × (record_bytes l ≤ length bytes.now) }
    ensures { result ≡ record_count l bytes.now }
{
    number_at(bytes, 5 + l)
}

// Writes a record's payload and state at the start of a buffer.
fn put_evidence(payload: &[u8], clean: bool, out: &mut [u8])
    requires { length payload.now + 1 ≤ length out.old }
    ensures { out.new ≡ evidence_text payload.now clean ++ drop (length payload.now + 1) out.old }
{
    copy_both(payload, &[u8::from(!clean)], out);
}

// Writes the count of the record that starts at a place.
pub fn put_count(store: &mut [u8], at: usize, l: usize, count: u32)
    requires { (l ≤ 64) × (at + record_bytes l ≤ length store.old) }
    ensures { store.new ≡ overwritten (count_place l at) (to_big_endian count) store.old }
{
    copy(&count.to_be_bytes(), &mut store[at + (5 + l)..]);
}

// Writes a new record at the start of a buffer: its count is 1.
pub fn put_record(seed: u32, payload: &[u8], clean: bool, out: &mut [u8])
    requires { (length payload.now ≤ 64) × (record_bytes (length payload.now) ≤ length out.old) }
    ensures { out.new ≡ record_text (record { read = record { seed = seed; payload = payload.now; clean = clean }; count = 1 }) ++ drop (record_bytes (length payload.now)) out.old }
{
    copy(&seed.to_be_bytes(), &mut *out);
    put_evidence(payload, clean, &mut out[4..]);
    put_count(out, 0, payload.len(), 1);
}

// Writes payload and state over those of the record that starts at a place. Its seed and its count stay.
pub fn replace_evidence(store: &mut [u8], at: usize, payload: &[u8], clean: bool)
    requires { at + record_bytes (length payload.now) ≤ length store.old }
    ensures { store.new ≡ overwritten (evidence_place at) (evidence_text payload.now clean) store.old }
{
    put_evidence(payload, clean, &mut store[at + 4..]);
}
