// States as bytes in a lent part: a record, the listing's head, and sums by fact.
#![tactic(auto)]

ghost use Rattle.std.specs.Prelude.{◌≡◌, ◌∷◌, ◌++◌, ◌+◌, ◌*◌, ◌≤◌, length, take, drop};
ghost use Rattle.base.specs.Bounds.{max_atoms, max_record};
ghost use Rattle.models.specs.StableModels.{atom_holds};
ghost use Rattle.models.specs.Listing.{bit_value, bits_value, record_size, record_of, be16, be32};
ghost use Rattle.records.specs.Written.{added_to};

use base::MAX_RECORD;
use format::be32;
use insertion::put_record;

// The bytes of a listing before its records.
pub const HEAD_SIZE: usize = 11;

// The bytes of a record of n facts.
// Kept: the new form is no plainer: a type for the one bound on n would be turned into the number at each use.
#[tactic(auto, unfolding(models::specs::Listing::record_size))]
pub fn record_size(n: usize) -> usize
    requires { n ≤ max_atoms }
    ensures { (result ≡ record_size n) × (result ≤ max_record) }
{
    n.div_ceil(8)
}

// The bit of fact f; 0 where the state has no such fact.
#[tactic(auto, unfolding(models::specs::Listing::bit_value, models::specs::StableModels::atom_holds))]
pub fn atom_bit(m: &[bool], f: usize) -> u8
    ensures { result ≡ bit_value (atom_holds m.now f) 1 }
{
    u8::from(m.get(f).copied().unwrap_or(false))
}

// The eight facts from an offset on, the first in the highest bit.
#[tactic(auto, using(crate::proofs::PackLaws::byte_steps))]
pub fn record_byte(m: &[bool], at: usize) -> u8
    requires { at ≤ max_atoms }
    ensures { result ≡ bits_value 8 (drop at m.now) }
{
    let mut v: u8 = 0;
    for i in 0..8 {
        v = 2 * v + atom_bit(m, at + i);
    }
    v
}

// A state's record, in the first bytes.
#[tactic(auto, using(crate::proofs::PackLaws::record_steps), unfolding(models::specs::Listing::record_of))]
pub fn record_of(m: &[bool]) -> [u8; MAX_RECORD]
    requires { length m.now ≤ max_atoms }
    ensures { take (record_size (length m.now)) result ≡ record_of (length m.now) m.now }
{
    let mut r = [0; MAX_RECORD];
    let w = record_size(m.len());
    for (j, byte) in r[..w].iter_mut().enumerate() {
        *byte = record_byte(m, 8 * j);
    }
    r
}

// Writes a state's record at an offset.
pub fn put_state(state: &[bool], part: &mut [u8], at: usize)
    requires { (length state.now ≤ max_atoms) × (at + record_size (length state.now) ≤ length part.old) }
    ensures { part.new ≡ take at part.old ++ (record_of (length state.now) state.now ++ drop (at + record_size (length state.now)) part.old) }
{
    put_record(part, at, &record_of(state)[..record_size(state.len())]);
}

// Writes a number's last four bytes at an offset, the highest first.
#[tactic(auto, unfolding(models::specs::Listing::be32))]
pub fn put_be32(part: &mut [u8], at: usize, v: usize)
    requires { at + 4 ≤ length part.old }
    ensures { part.new ≡ take at part.old ++ (be32 v ++ drop (at + 4) part.old) }
{
    put_record(part, at, &v.to_be_bytes()[4..]);
}

// Adds a state to the sums by fact: to each fact's four bytes 1 where it stands.
// Kept: the C interface has the sums as the caller's bytes, with no heap for a list of numbers, so a sum is found by its fact's offset.
#[tactic(auto, using(crate::proofs::SumLaws::sum_steps), unfolding(models::specs::Listing::bit_value, models::specs::StableModels::atom_holds))]
pub fn add_state(m: &[bool], sums: &mut [u8])
    requires { (length m.now ≤ max_atoms) × (4 * length m.now ≤ length sums.old) }
    ensures { sums.new ≡ added_to (length m.now) sums.old m.now }
{
    for (f, stands) in m.iter().enumerate() {
        let sum = be32(sums, 4 * f) + usize::from(*stands);
        put_be32(sums, 4 * f, sum);
    }
}

// Writes the listing's head: version, length of the whole listing, n and k.
#[tactic(auto, unfolding(models::specs::Listing::be16, models::specs::Listing::be32))]
pub fn put_head(buf: &mut [u8], size: usize, n: usize, k: usize)
    requires { 11 ≤ length buf.old }
    ensures { buf.new ≡ 1 ∷ (be32 size ++ (be16 n ++ (be32 k ++ drop 11 buf.old))) }
{
    put_record(buf, 0, &[1]);
    put_be32(buf, 1, size);
    put_record(buf, 5, &n.to_be_bytes()[6..]);
    put_be32(buf, 7, k);
}
