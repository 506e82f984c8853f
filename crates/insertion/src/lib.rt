// Records as byte strings: their order, and one written at its place.
#![tactic(auto)]

ghost use Rattle.std.specs.Prelude.{◌≡◌, ◌++◌, ◌+◌, ◌≤◌, length, take, drop};
ghost use Rattle.insertion.specs.Runs.{bytes_before};

// Whether the record at an offset comes before rec.
// Kept: a name for std's `cmp` of a record in a part: the calls are no plainer with it, and each would prove what that order is.
#[tactic(auto, unfolding(crate::specs::Runs::bytes_before))]
pub fn record_before(part: &[u8], at: usize, rec: &[u8]) -> bool
    requires { at + length rec.now ≤ length part.now }
    ensures { result ≡ bytes_before (take (length rec.now) (drop at part.now)) rec.now }
{
    part[at..at + rec.len()].cmp(rec).is_lt()
}

// Writes rec at an offset.
// Kept: a name for std's `copy_from_slice` into a part: the writers are no plainer with it, and each would prove what it leaves.
pub fn put_record(part: &mut [u8], at: usize, rec: &[u8])
    requires { at + length rec.now ≤ length part.old }
    ensures { part.new ≡ take at part.old ++ (rec.now ++ drop (at + length rec.now) part.old) }
{
    part[at..at + rec.len()].copy_from_slice(rec);
}
