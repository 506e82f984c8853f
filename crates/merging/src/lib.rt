// In-place merging of two rising runs of records of one width, one behind the other in a lent part, without other memory.
#![tactic(auto)]

ghost use Rattle.std.specs.Prelude.{◌≡◌, true, ◌++◌, ◌+◌, ◌-◌, ◌*◌, ◌≤◌, ◌<◌, length, take, drop};
ghost use Rattle.merging.specs.Merging.{swapped, GoesIn, Parted, Merged};

use insertion::record_before;

// In records: how many of the first run, and how many of the second, come into the lower half.
#[derive(Clone, Copy)]
pub struct Cut {
    pub first: usize,
    pub second: usize,
}

// Swaps the first s bytes with the last s.
pub fn swap_ends(part: &mut [u8], s: usize)
    requires { s + s ≤ length part.old }
    ensures { part.new ≡ swapped s part.old }
{
    let back = part.len() - s;
    let (front, end) = part.split_at_mut(back);
    front[..s].swap_with_slice(end);
}

// Brings what lies from k on to the front. What is swapped to an end of what is left is in its place.
// Kept: std's `rotate_left` was tried, and a listing of records in scattered order then took 1.12 of the time.
#[tactic(auto, using(crate::proofs::RotateLaws::rotate_steps))]
pub fn rotate(part: &mut [u8], k: usize)
    requires { k ≤ length part.old }
    ensures { part.new ≡ drop k part.old ++ take k part.old }
{
    if k == 0 {
        return;
    }
    let mut lo = 0;
    let mut hi = part.len();
    let mut left = k;
    while left < hi - lo {
        let others = hi - lo - left;
        if left <= others {
            swap_ends(&mut part[lo..hi], left);
            hi -= left;
        } else {
            swap_ends(&mut part[lo..hi], others);
            lo += others;
            left -= others;
        }
    }
}

// How many of the records that start at an offset the one at `at` goes behind, where they rise.
// Kept: the new form is no plainer: std's searches go over a slice's elements, and bytes in records of a width known at run time are none.
#[tactic(auto, using(crate::proofs::PlaceLaws::place_steps))]
pub fn place(part: &[u8], from: usize, count: usize, w: usize, at: usize) -> usize
    requires { (from + count * w ≤ length part.now) × (at + w ≤ length part.now) }
    ensures { GoesIn w from count at part.now result }
{
    let rec = &part[at..at + w];
    let mut lo = 0;
    let mut hi = count;
    while lo < hi {
        let m = lo + (hi - lo) / 2;
        if record_before(part, from + m * w, rec) {
            lo = m + 1;
        } else {
            hi = m;
        }
    }
    lo
}

// Where to cut n records and the m behind them, so that what lies in front of a cut goes before all that lies behind one: between
// the two runs where they rise together, the second run whole in front where they fall, else by the middle of the longer run.
#[tactic(auto, using(crate::proofs::CutLaws::run_sizes))]
pub fn find_cut(part: &[u8], n: usize, m: usize, w: usize) -> Cut
    requires { (0 < n) × (0 < m) × (0 < w) × (length part.now ≡ (n + m) * w) }
    ensures { Parted w n m part.now result.first result.second }
{
    let start = n * w;
    let last = start - w;
    if !record_before(part, start, &part[last..start]) {
        return Cut {
            first: n,
            second: 0,
        };
    }
    let end = part.len();
    let rear = end - w;
    if !record_before(part, 0, &part[rear..end]) {
        return Cut {
            first: 0,
            second: m,
        };
    }
    if m <= n {
        let i = n / 2;
        let j = place(part, start, m, w, i * w);
        return Cut {
            first: i,
            second: j,
        };
    }
    let j = m / 2;
    let i = place(part, 0, n, w, start + j * w);
    Cut {
        first: i,
        second: j,
    }
}

// Merges n records and the m behind them: cut, the two inner pieces change places, and each half is merged.
#[tactic(auto, using(crate::proofs::JoinLaws::sizes_of))]
pub fn merge(part: &mut [u8], n: usize, m: usize, w: usize)
    requires { (0 < w) × (length part.old ≡ (n + m) * w) }
    ensures { Merged w n m part.old part.new }
{
    if n == 0 || m == 0 {
        return;
    }
    let Cut {
        first: i,
        second: j,
    } = find_cut(part, n, m, w);
    let low = i * w;
    let high = (n + j) * w;
    rotate(&mut part[low..high], (n - i) * w);
    let half = (i + j) * w;
    merge(&mut part[0..half], i, j, w);
    merge(&mut part[half..], n - i, m - j, w);
}
