// A quick test of what is decided about the branching facts, before anything is filled: a fact that stands has to be the head of a
// rule of whose body no literal is denied. It reads masks over the branching facts, three a rule, made once a call. Other tests read
// the masks of bodies too.
#![tactic(auto)]

ghost use Rattle.std.specs.Prelude.{◌≡◌, true, ◌<◌, ◌≤◌, length};
ghost use Rattle.base.specs.Bounds.{max_branching};
ghost use Rattle.format.specs.Book.{literals_of};
ghost use Rattle.table.specs.Rows.{row_at};
ghost use Rattle.setting.specs.RuleMasks.{Low, AtomBits, BitAt, BodyMasked, head_masks, Headed};

use base::MAX_ATOMS;
use format::Literals;
use table::TableRow;

// Bit i at the i-th atom; none at the others.
pub fn atom_bits(atoms: &[u32]) -> [u32; MAX_ATOMS]
    requires atoms_len_bound { length atoms.now ≤ max_branching }
    requires low { Low atoms.now }
    ensures { AtomBits atoms.now result (length atoms.now) }
{
    let mut bits: [u32; MAX_ATOMS] = [0; MAX_ATOMS];
    for (i, f) in atoms.iter().enumerate() {
        bits[*f as usize] |= 1 << i;
    }
    bits
}

// A fact's bit, where it branches.
pub fn branching_bit(bits: &[u32], f: usize) -> Option<u32>
    ensures { BitAt bits.now f result }
{
    bits.get(f).copied().filter(|bit| *bit != 0)
}

// The masks of a body: its plain atoms and its negated ones; whole where all of them branch.
// Kept: a flag beside the masks, and no Option: those of a body that is not whole are used too, for rules' heads and rows that reject.
#[derive(Clone, Copy)]
pub struct BodyMasks {
    pub plain: u32,
    pub negated: u32,
    pub whole: bool,
}

// The masks of a body's bytes. An atom that does not branch has no bit, and leaves the masks as they are.
#[tactic(auto, using(crate::proofs::RuleMaskLaws::masked_none, crate::proofs::RuleMaskLaws::masked_negated, crate::proofs::RuleMaskLaws::masked_plain))]
pub fn body_masks(bits: &[u32], body: &[u8]) -> BodyMasks
    ensures { BodyMasked bits.now (literals_of body.now) result }
{
    let mut masks = BodyMasks {
        plain: 0,
        negated: 0,
        whole: true,
    };
    for literal in Literals(body) {
        match branching_bit(bits, literal.atom) {
            None => masks.whole = false,
            Some(bit) if literal.negated => masks.negated |= bit,
            Some(bit) => masks.plain |= bit,
        }
    }
    masks
}

// The masks of a row's body.
#[tactic(auto, unfolding(table::specs::Rows::row_at))]
pub fn row_masks(row: TableRow, bits: &[u32]) -> BodyMasks
    ensures { BodyMasked bits.now (row_at row.entry.table.book.now row.entry.table.rows.now row.entry.j).body result }
{
    body_masks(bits, row.body())
}

// A rule as masks over the branching facts: the plain and the negated atoms of its body, and its head.
#[derive(Clone, Copy)]
pub struct HeadMasks {
    pub plain: u32,
    pub negated: u32,
    pub head: u32,
}

// The masks of a rule with this body, where its head has a bit: rules of other heads are never asked for.
pub fn head_masks(body: BodyMasks, head: Option<u32>) -> Option<HeadMasks>
    ensures { result ≡ head_masks body head }
{
    head.map(|head| HeadMasks {
        plain: body.plain,
        negated: body.negated,
        head,
    })
}

// A rule's head where nothing of its body is denied, and else no bit. There is no branch in it: what is denied at one setting and not
// at the next is nothing that a processor could guess.
#[tactic(auto, using(crate::proofs::RuleMaskLaws::weighed, crate::proofs::RuleMaskLaws::weighed_le))]
fn head_unless(denials: u32, head: u32) -> u64
    ensures { denials ≡ 0 → result ≡ head }
{
    let weight = (4294967296 - u64::from(denials)) >> 32;
    u64::from(head) * weight
}

// Whether each atom that stands is the head of a rule of whose body no literal is denied. Most often the first rules show it.
#[tactic(auto, using(crate::proofs::RuleMaskLaws::heads_more))]
pub fn headed(rules: &[HeadMasks], standing: u32, denied: u32) -> bool
    ensures { Headed rules.now standing denied → result ≡ true }
{
    let wanted = u64::from(standing);
    let mut heads: u64 = 0;
    for rule in rules {
        if wanted | heads == heads {
            return true;
        }
        let denials = rule.plain & denied | rule.negated & standing;
        heads |= head_unless(denials, rule.head);
    }
    wanted | heads == heads
}
