// Relations between at most MAX_LAYERS layers as masks: one bit more, the closure, and whether a layer is related to itself. The check
// of a book closes its arrows with them.
#![tactic(auto)]

ghost use Rattle.std.specs.Prelude.{◌≡◌, ◌||◌, ℕ, ◌<◌, ◌≤◌, length};
ghost use Rattle.base.specs.Bounds.{max_layers};
ghost use Rattle.base.specs.Lists.{any, up_to};
ghost use Rattle.layers.specs.Layers.{link, same_arrow};
ghost use Rattle.layers.specs.Masks.{marked, Linked, Way, EmptyFrom};

use base::MAX_LAYERS;

// Whether bit j of mask i is set.
#[tactic(auto, using(crate::proofs::WarshallLaws::test_bit), unfolding(crate::specs::Masks::marked))]
pub fn bit_of(m: &[u32], i: usize, j: usize) -> bool
    requires { (i < length m.now) × (j < max_layers) }
    ensures { result ≡ marked m.now i j }
{
    (m[i] >> j) & 1 == 1
}

// Sets bit j of mask i.
#[tactic(auto, using(crate::proofs::BitLaws::with_bit))]
pub fn set_bit(m: &mut [u32], i: usize, j: usize)
    requires { (i < length m.old) × (j < max_layers) }
    ensures { (x y : ℕ) → marked m.new x y ≡ (marked m.old x y || same_arrow (link i j) (link x y)) }
{
    m[i] |= 1 << j;
}

// The closure, by Warshall: mask i has bit j where there is a way from i to j. No way leads from a layer whose mask is empty, so the
// masks from `count` on are passed over.
#[tactic(auto, using(crate::proofs::WarshallLaws::turns_start))]
pub fn transitive_closure(start: [u32; MAX_LAYERS], count: usize) -> [u32; MAX_LAYERS]
    requires { (count ≤ max_layers) × EmptyFrom count start }
    ensures sound { (i j : ℕ) → Linked result i j → Way start i j }
    ensures full { (i j : ℕ) → Way start i j → Linked result i j }
{
    let mut m = start;
    for k in 0..count {
        let row = m[k];
        // Kept: by an index, since `bit_of` tests a bit of one of a list's masks: over `iter_mut` that test would stand a second time.
        for i in 0..count {
            if bit_of(&m, i, k) {
                m[i] |= row;
            }
        }
    }
    m
}

// Whether one of the first `count` layers has a way to itself.
pub fn has_cycle(m: &[u32], count: usize) -> bool
    requires { (count ≤ max_layers) × (count ≤ length m.now) }
    ensures { result ≡ any (λ i. marked m.now i i) (up_to count) }
{
    (0..count).any(|i| bit_of(m, i, i))
}
