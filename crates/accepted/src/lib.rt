// What an accepted book gives to the calls above: the number of its facts, and the table of the rules that count at a layer. Its
// bytes are believed because the check has walked them.
#![tactic(auto)]

ghost use Rattle.std.specs.Prelude.{◌≡◌, ◌<◌, ◌≤◌, IfOk};
ghost use Rattle.base.specs.Bounds.{max_atoms};
ghost use Rattle.layers.specs.Masks.{LowerMasks};
ghost use Rattle.format.specs.Book.{arrows_of, book_of};
ghost use Rattle.table.specs.Filled.{Filled};
ghost use Rattle.table.specs.Table.{TableMade};
ghost use Rattle.bans.specs.Bans.{BansMade};
ghost use Rattle.book.specs.Causes.{first_of, verdict_of};
ghost use Rattle.std.proofs.Props.{props};
ghost use Rattle.accepted.specs.Accepted.{IsAccepted};
ghost use Rattle.accepted.specs.Driven.{has_absent_layer, driven_tests, layer_tests};

use bans::{Bans, ban_table};
use base::{MAX_LAYERS, MAX_RULES};
use book::{Cause, Header, check_book};
use table::{Row, Source, Span, Table};

// The number of facts.
#[tactic(auto, using(crate::proofs::RangeFacts::whole_book))]
pub fn atom_count(book: &[u8]) -> usize
    requires { IsAccepted book.now }
    ensures { (result ≡ (book_of book.now).atoms) × (0 < result) × (result ≤ max_atoms) }
{
    Header::read(book).atoms
}

// Whether the set has a layer that a book of so many layers lacks. A book of MAX_LAYERS lacks none: every set is lawful there, and 32 bits
// are never shifted by 32.
#[tactic(auto, using(crate::proofs::DrivenLaws::absent_shifted, crate::proofs::DrivenLaws::absent_none))]
fn has_absent_layer(layers: usize, off: u32) -> bool
    ensures { result ≡ has_absent_layer layers off }
{
    layers < MAX_LAYERS && off >> layers != 0
}

// The first of causes 9 and 19 that applies, or accepted.
#[tactic(auto, unfolding(crate::specs::Driven::driven_tests, crate::specs::Driven::is_no_such_layer, book::specs::Causes::first_of, book::specs::Causes::verdict_if))]
fn check_driven(layers: usize, layer: usize, off: u32) -> Result<(), Cause>
    ensures { result ≡ first_of (driven_tests layers layer off) }
{
    if layers <= layer {
        return Err(Cause::NoSuchLayer);
    }
    if has_absent_layer(layers, off) {
        return Err(Cause::NoSuchLayerOff);
    }
    Ok(())
}

// A layer of an accepted book, to be driven with a set of layers switched off, and each layer's mask of the layers below it: what every
// call that drives a layer works on.
#[derive(Clone, Copy)]
pub struct Driving<'a> {
    pub book: &'a [u8],
    pub layer: usize,
    pub off: u32,
    pub lower: [u32; MAX_LAYERS],
    pub ghost accepted: { IsAccepted book.now } by { Prim.hlevel props },
    pub ghost layer_inside: { layer < (book_of book.now).layers },
    pub ghost lower_masks: { LowerMasks (arrows_of book.now) lower } by { Prim.hlevel props },
}

impl<'a> Driving<'a> {
    ghost use Rattle.accepted.specs.Driving.{driven_program};

    // The number of the book's facts.
    pub fn atom_count(&self) -> usize
        ensures { (result ≡ (book_of self.now.book.now).atoms) × (0 < result) × (result ≤ max_atoms) }
    {
        atom_count(self.book)
    }

    // What the layer's table is made from.
    // Kept: field by field: a `Source` within would be no plainer, since what speaks of the book or the layer would go through it.
    #[tactic(auto, using(crate::proofs::RangeFacts::whole_book, book::proofs::RangeLaws::header_in))]
    fn source(&self) -> Source<'a>
        ensures { (result.book ≡ self.now.book) × (result.layer ≡ self.now.layer) × (result.off ≡ self.now.off) }
    {
        Source {
            book: self.book,
            first: Header::read(self.book).rules_from(),
            layer: self.layer,
            off: self.off,
            lower: self.lower,
        }
    }

    // Writes the table of the rules that count at the layer, and says how many rows it has.
    pub fn prepare(&self, rows: &mut [Row; MAX_RULES]) -> usize
        ensures { Filled (TableMade (driven_program self.now) self.now.book.now) rows.new result }
    {
        self.source().rule_table(rows)
    }

    // Writes where the bodies of the constraints that count at the layer stand, and says how many there are.
    pub fn prepare_bans(&self, bans: &mut [Span; MAX_RULES]) -> usize
        ensures { Filled (BansMade (driven_program self.now).constraints self.now.book.now) bans.new result }
    {
        ban_table(&self.source(), bans)
    }

    // Writes the table of the rules that count at the layer, and lends it.
    pub fn table<'r>(&self, rows: &'r mut [Row; MAX_RULES]) -> Table<'r>
    where
        'a: 'r,
        ensures made { TableMade (driven_program self.now) self.now.book.now result.rows.now }
        ensures book_is { result.book ≡ self.now.book }
    {
        let count = self.prepare(rows);
        Table {
            book: self.book,
            rows: &rows[..count],
        }
    }

    // Writes where the bodies of the constraints that count at the layer stand, and lends them.
    // Kept: beside `table`, and of its shape: what is lent is another type, with another fact of its own.
    pub fn bans<'r>(&self, bans: &'r mut [Span; MAX_RULES]) -> Bans<'r>
    where
        'a: 'r,
        ensures made { BansMade (driven_program self.now).constraints self.now.book.now result.spans.now }
        ensures book_is { result.book ≡ self.now.book }
    {
        let count = self.prepare_bans(bans);
        Bans {
            book: self.book,
            spans: &bans[..count],
        }
    }
}

// The layer, ready to be driven, or the first of causes 1 to 9 and 19 that applies: what every call that drives a layer asks first.
#[tactic(auto, using(crate::proofs::RangeFacts::whole_book, crate::proofs::DrivenLaws::book_refused, crate::proofs::DrivenLaws::book_accepted))]
pub fn check_layer(book: &[u8], layer: u32, off: u32) -> Result<Driving<'_>, Cause>
    ensures verdict { verdict_of result ≡ first_of (layer_tests book.now layer off) }
    ensures driving { IfOk result (λ d. (d.book.now ≡ book.now) × (d.layer ≡ layer) × (d.off ≡ off)) }
{
    let lower = check_book(book)?;
    let header = Header::read(book);
    check_driven(header.layers, layer as usize, off)?;
    Ok(Driving {
        book,
        layer: layer as usize,
        off,
        lower,
    })
}
