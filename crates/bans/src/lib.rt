// The constraints that count at a layer: where each relevant one's body stands in the book, found in one walk over the rules' records, and
// whether some body holds in a finished state.
#![tactic(auto)]

ghost use Rattle.std.specs.Prelude.{◌≡◌, ◌≤◌, length, map};
ghost use Rattle.std.proofs.Props.{props};
ghost use Rattle.base.specs.Bounds.{max_rules};
ghost use Rattle.base.specs.Lists.{all, any, filter};
ghost use Rattle.models.specs.StableModels.{holds};
ghost use Rattle.table.specs.Filled.{Filled};
ghost use Rattle.table.specs.Records.{rules_from};
ghost use Rattle.table.specs.Rows.{takes_constraint};
ghost use Rattle.table.specs.Table.{program_of};
ghost use Rattle.bans.specs.Bans.{bodies_of, BansFit, BansMade};

use base::MAX_RULES;
use table::{RuleSection, Source, Span, body_holds, gather, span_bytes};

// Whether the body of some constraint holds in a state, however many there are.
pub fn banned(book: &[u8], spans: &[Span], m: &[bool]) -> bool
    requires { BansFit book.now spans.now }
    ensures { result ≡ any (all (holds m.now)) (bodies_of book.now spans.now) }
{
    spans
        .iter()
        .any(|ban| body_holds(m, span_bytes(book, *ban)))
}

// Where the bodies of the constraints stand, with the book that they lie in.
#[derive(Clone, Copy)]
pub struct Bans<'a> {
    pub book: &'a [u8],
    pub spans: &'a [Span],
    pub ghost fit: { BansFit book.now spans.now } by { Prim.hlevel props },
    pub ghost few: { length spans.now ≤ max_rules },
}

impl<'a> Bans<'a> {
    // Whether the body of some constraint holds in a state.
    pub fn banned(self, m: &[bool]) -> bool
        ensures { result ≡ any (all (holds m.now)) (bodies_of self.entry.book.now self.entry.spans.now) }
    {
        banned(self.book, self.spans, m)
    }
}

// Writes where the bodies of the constraints stand whose layer is in the mask, in their order, and says how many there are.
pub fn make_bans(rules: RuleSection, mask: u32, bans: &mut [Span; MAX_RULES]) -> usize
    ensures { Filled (BansMade (map (λ x. x.body) (filter (takes_constraint mask) (rules_from rules.entry.book.now rules.entry.first))) rules.entry.book.now) bans.new result }
{
    gather(rules, mask, bans)
}

// Writes where the bodies of the constraints stand that count at a layer, of that layer and of those below it that are not switched off,
// and says how many there are.
pub fn ban_table(source: &Source, bans: &mut [Span; MAX_RULES]) -> usize
    ensures { Filled (BansMade (program_of source.now.book.now source.now.layer source.now.off).constraints source.now.book.now) bans.new result }
{
    make_bans(source.rules(), source.relevant(), bans)
}
