// Nogoods: a rule that nothing can reject, with a body that holds and a head that does not, is in no stable model, nor is a constraint
// with a body that holds. Where all atoms branch, two masks say it, and the search leaves out every group of settings that has them
// decided so.
#![tactic(auto)]

ghost use Rattle.std.specs.Prelude.{◌≡◌, ◌↔◌, true, ◌<◌, IfSome, IsTrue};
ghost use Rattle.table.specs.Rows.{SpanFits, row_count, row_at, RowsBounded};
ghost use Rattle.bans.specs.Bans.{body_of};
ghost use Rattle.setting.specs.RuleMasks.{BodyMasked};
ghost use Rattle.nogoods.specs.Nogoods.{Rejectable, AllWithin, NogoodOf, IsDecided, Violated};

use base::MAX_NAMES;
use setting::{BodyMasks, body_masks, branching_bit};
use table::{Row, Span, TableRow, literal_named, opposite, span_bytes};

// Nogoods that a plan has room for: one that is left out costs time and nothing else.
pub const MAX_NOGOODS: usize = 512;

// Two masks over the branching atoms: what no stable model has together.
#[derive(Clone, Copy)]
pub struct Nogood {
    pub standing: u32,
    pub denied: u32,
}

impl Nogood {
    // Whether all that it has is decided so.
    fn is_decided(&self, standing: u32, denied: u32) -> bool
        ensures { IsTrue result ↔ IsDecided self.now standing denied }
    {
        self.standing & standing == self.standing && self.denied & denied == self.denied
    }
}

// Bit i at name h: a row can reject the rules of layer i with that head.
pub fn rejectable_masks(rows: &[Row]) -> [u32; MAX_NAMES]
    requires { RowsBounded rows.now }
    ensures { Rejectable rows.now result (row_count rows.now) }
{
    let mut rejectable: [u32; MAX_NAMES] = [0; MAX_NAMES];
    for row in rows {
        rejectable[opposite(usize::from(row.head))] |= row.overridden;
    }
    rejectable
}

// The nogood of a row with these masks of its body, where nothing can reject the row and all its atoms branch.
pub fn row_nogood(
    row: TableRow,
    rejectable: &[u32; MAX_NAMES],
    bits: &[u32],
    body: BodyMasks,
) -> Option<Nogood>
    requires { BodyMasked bits.now (row_at row.table.book.now row.table.rows.now row.j).body body }
    ensures { IfSome result (NogoodOf row.entry.table.book.now row.entry.table.rows.now rejectable.now bits.now row.entry.j) }
{
    if !body.whole || !row.alive(rejectable) {
        return None;
    }
    let head = literal_named(row.head());
    let bit = branching_bit(bits, head.atom)?;
    if head.negated {
        return Some(Nogood {
            standing: body.plain | bit,
            denied: body.negated,
        });
    }
    Some(Nogood {
        standing: body.plain,
        denied: body.negated | bit,
    })
}

// The nogood of a constraint: its body, where all its atoms branch. A body that speaks for and against an atom never holds, and would only
// be tried in vain.
pub fn ban_nogood(book: &[u8], ban: Span, bits: &[u32]) -> Option<Nogood>
    requires { SpanFits book.now ban }
    ensures { IfSome result (λ n. AllWithin bits.now n (body_of book.now ban)) }
{
    let body = body_masks(bits, span_bytes(book, ban));
    if !body.whole || body.plain & body.negated != 0 {
        return None;
    }
    Some(Nogood {
        standing: body.plain,
        denied: body.negated,
    })
}

// Whether all that some nogood has is decided so.
pub fn has_nogood(nogoods: &[Nogood], standing: u32, denied: u32) -> bool
    ensures { result ≡ true → Violated nogoods.now standing denied }
{
    nogoods
        .iter()
        .any(|nogood| nogood.is_decided(standing, denied))
}
