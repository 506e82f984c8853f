// The table of the rules that count at a layer, as the test and the search read it: a row a rule, with the mask of the layers in which it
// overrides rules. Made once a call; bodies stay where they are in the book.
#![tactic(auto)]

ghost use Rattle.std.specs.Prelude.{◌≡◌, ◌<◌, cond, eqb};
ghost use Rattle.std.proofs.Props.{props};
ghost use Rattle.base.specs.Bounds.{max_atoms, max_names, max_layers};
ghost use Rattle.base.specs.Lists.{all, any};
ghost use Rattle.layers.specs.Masks.{bit_of};
ghost use Rattle.format.specs.Book.{literals_of};
ghost use Rattle.models.specs.StableModels.{atom_holds, complement, same_literal, holds, body_holds};
ghost use Rattle.table.specs.Names.{literal_named};
ghost use Rattle.table.specs.Rows.{SpanFits, span_bytes, nth, row_count, head_name, row_layer, overridden, row_body, row_at, alive, RowsBounded, RowsFit, SameRules};
ghost use Rattle.table.specs.Overriding.{HeadLayers, Overridden};
ghost use Rattle.table.specs.Table.{program_of, Prepared, RelevantLayers, RowsMade, TableMade};
ghost use Rattle.table.specs.Filled.{Filled};

mod section;

use base::{MAX_ATOMS, MAX_LAYERS, MAX_NAMES, MAX_RULES};
use format::{Literal, Literals};
pub use section::{FromRecord, RuleRecord, RuleSection, gather};

// Where a body stands in the book.
#[derive(Clone, Copy)]
pub struct Span {
    pub start: u32,
    pub size: u16,
}

// What stands in an array of bodies before they are found.
pub const NO_SPAN: Span = Span { start: 0, size: 0 };

// A rule: where its body is, the name of its head, its layer, and the mask of the layers in which it overrides rules. A row has 16 bytes,
// so that its place is a shift and no multiplication, which every pass over the rows feels.
#[derive(Clone, Copy)]
pub struct Row {
    pub body: Span,
    pub head: u16,
    pub layer: u16,
    pub overridden: u32,
}

// What stands in an array of rows before they are made.
pub const NO_ROW: Row = Row {
    body: NO_SPAN,
    head: 0,
    layer: 0,
    overridden: 0,
};

// Whether an atom holds: one that the array does not have does not.
#[tactic(auto, unfolding(models::specs::StableModels::atom_holds))]
pub fn atom_holds(m: &[bool], f: usize) -> bool
    ensures { result ≡ atom_holds m.now f }
{
    m.get(f).copied().unwrap_or(false)
}

// Whether a literal holds.
#[tactic(auto, unfolding(models::specs::StableModels::holds, models::specs::StableModels::signed))]
pub fn literal_holds(m: &[bool], l: Literal) -> bool
    ensures { result ≡ holds m.now l }
{
    atom_holds(m, l.atom) != l.negated
}

// Whether every literal of a body's bytes holds.
pub fn body_holds(m: &[bool], body: &[u8]) -> bool
    ensures { result ≡ all (holds m.now) (literals_of body.now) }
{
    Literals(body).all(|l| literal_holds(m, l))
}

// The bytes of a body, as a part of the book that starts in its middle.
pub fn span_bytes(book: &[u8], span: Span) -> &[u8]
    requires { SpanFits book.now span }
    ensures { result.now ≡ span_bytes book.now span }
{
    let from = span.start as usize;
    &book[from..from + usize::from(span.size)]
}

// Whether the mask has the layer.
// Kept: layers' `bit_of` and leaf's `stands` test a bit too: one function below all three is no plainer than the test that it would have.
// Kept: the layer's bound in a clause: a type for that one bound would be turned into the number at each use.
#[tactic(auto, using(layers::proofs::WarshallLaws::test_bit))]
pub fn has_layer(mask: u32, layer: usize) -> bool
    requires { layer < max_layers }
    ensures { result ≡ eqb (bit_of mask layer) 1 }
{
    (mask >> layer) & 1 == 1
}

// The rows of a table, with the book that their bodies lie in.
#[derive(Clone, Copy)]
pub struct Table<'a> {
    pub book: &'a [u8],
    pub rows: &'a [Row],
    pub ghost fit: { RowsFit book.now rows.now },
}

impl<'a> Table<'a> {
    pub fn len(self) -> usize
        ensures { result ≡ row_count self.entry.rows.now }
    {
        self.rows.len()
    }

    // Row j, with the table that it stands in.
    // Kept: an iterator over rows is no plainer: what a loop above has done is said by how many rows are done, the loop's number.
    pub fn row(self, j: usize) -> TableRow<'a>
        requires { j < row_count self.rows.now }
        ensures table_is { result.table ≡ self.entry }
        ensures number_is { result.j ≡ j }
    {
        TableRow { table: self, j }
    }
}

// A row of an array, by its number.
pub fn row_at(rows: &[Row], j: usize) -> Row
    requires { j < row_count rows.now }
    ensures row { result ≡ nth rows.now j }
    ensures bounds { RowsBounded rows.now → (result.head < max_names) × (result.layer < max_layers) }
{
    rows[j]
}

// A row of a table, by its number.
#[derive(Clone, Copy)]
pub struct TableRow<'a> {
    pub table: Table<'a>,
    pub j: usize,
    pub ghost inside: { j < row_count table.rows.now },
}

impl<'a> TableRow<'a> {
    fn row(self) -> Row
        ensures { result ≡ nth self.entry.table.rows.now self.entry.j }
    {
        row_at(self.table.rows, self.j)
    }

    // The name of its head.
    pub fn head(self) -> usize
        ensures { (result ≡ head_name self.entry.table.rows.now self.entry.j) × (result < max_names) }
    {
        usize::from(self.row().head)
    }

    // Its layer.
    pub fn layer(self) -> usize
        ensures { (result ≡ row_layer self.entry.table.rows.now self.entry.j) × (result < max_layers) }
    {
        usize::from(self.row().layer)
    }

    // The mask of the layers in which it overrides rules.
    pub fn overridden(self) -> u32
        ensures { result ≡ overridden self.entry.table.rows.now self.entry.j }
    {
        self.row().overridden
    }

    // Its body, as a part of the book that starts in its middle.
    pub fn body(self) -> &'a [u8]
        ensures { result.now ≡ row_body self.entry.table.book.now self.entry.table.rows.now self.entry.j }
    {
        span_bytes(self.table.book, self.row().body)
    }

    // Whether its body holds.
    #[tactic(auto, unfolding(crate::specs::Rows::row_at, models::specs::StableModels::body_holds))]
    pub fn holds(self, m: &[bool]) -> bool
        ensures { result ≡ body_holds m.now (row_at self.entry.table.book.now self.entry.table.rows.now self.entry.j) }
    {
        body_holds(m, self.body())
    }

    // Whether it is alive: its layer's bit is not set in the mask at its head's name.
    #[tactic(auto, using(crate::proofs::RowLaws::alive_told))]
    pub fn alive(self, rejects: &[u32; MAX_NAMES]) -> bool
        ensures { result ≡ alive rejects.now (row_at self.entry.table.book.now self.entry.table.rows.now self.entry.j) }
    {
        !has_layer(rejects[self.head()], self.layer())
    }
}

// The name of the opposite literal.
// Kept: a literal as a number is no plainer as a struct: rows hold it in 16 bits and masks are found by it, so it would be turned back.
#[tactic(auto, using(crate::proofs::NameLaws::opposite_low, crate::proofs::NameLaws::opposite_high))]
pub fn opposite(h: usize) -> usize
    requires { h < max_names }
    ensures { (literal_named result ≡ complement (literal_named h)) × (result < max_names) }
{
    if h < MAX_ATOMS {
        return h + MAX_ATOMS;
    }
    h - MAX_ATOMS
}

// The name of a literal.
#[tactic(auto, using(crate::proofs::NameLaws::named_negated, crate::proofs::NameLaws::named_plain))]
pub fn name_of(l: Literal) -> usize
    requires { l.atom < max_atoms }
    ensures { (literal_named result ≡ l) × (result < max_names) }
{
    if l.negated {
        return l.atom + MAX_ATOMS;
    }
    l.atom
}

// The literal of a name.
#[tactic(auto, unfolding(crate::specs::Names::literal_named))]
pub fn literal_named(h: usize) -> Literal
    ensures { result ≡ literal_named h }
{
    if h < MAX_ATOMS {
        return Literal {
            atom: h,
            negated: false,
        };
    }
    Literal {
        atom: h - MAX_ATOMS,
        negated: true,
    }
}

// Writes the rows of the rules whose layer is in the mask, in their order, and says how many there are.
pub fn make_rows(rules: RuleSection, mask: u32, rows: &mut [Row; MAX_RULES]) -> usize
    ensures { Filled (RowsMade rules.entry.book.now rules.entry.first mask) rows.new result }
{
    gather(rules, mask, rows)
}

// Bit i at name h: a row has this head, in layer i.
fn head_layers(rows: &[Row]) -> [u32; MAX_NAMES]
    requires { RowsBounded rows.now }
    ensures { HeadLayers rows.now result (row_count rows.now) }
{
    let mut masks = [0; MAX_NAMES];
    for row in rows {
        masks[usize::from(row.head)] |= 1 << row.layer;
    }
    masks
}

// Whether a literal is among those of a body's bytes, sign and all.
fn has_literal(body: &[u8], l: Literal) -> bool
    ensures { result ≡ any (same_literal l) (literals_of body.now) }
{
    Literals(body).any(|other| l == other)
}

// The mask of the layers in which a rule overrides others, from that of the lower layers in which the opposite head stands: empty where it
// leans on itself, its head among its own body's literals. The body is read only where there is a rule to override.
fn unless_leaning(head: Literal, body: &[u8], mask: u32) -> u32
    ensures { result ≡ cond (any (same_literal head) (literals_of body.now)) 0 mask }
{
    if mask != 0 && has_literal(body, head) {
        return 0;
    }
    mask
}

// Writes each row's mask of the layers in which it overrides a rule: `lower` has each layer's mask of the layers below it.
pub fn overridden_layers(book: &[u8], rows: &mut [Row], lower: &[u32; MAX_LAYERS])
    requires { RowsFit book.now rows.old }
    ensures { SameRules rows.old rows.new × Overridden book.now rows.old lower.now rows.new (row_count rows.old) }
{
    let heads = head_layers(rows);
    for row in rows.iter_mut() {
        let h = usize::from(row.head);
        let mask = heads[opposite(h)] & lower[usize::from(row.layer)];
        row.overridden = unless_leaning(literal_named(h), span_bytes(book, row.body), mask);
    }
}

// The mask of the layers whose rules count at a layer: itself and those below it, without those that are switched off.
#[tactic(auto, using(crate::proofs::TableLaws::mask_counts))]
pub fn relevant_layers(lower: &[u32; MAX_LAYERS], layer: usize, off: u32) -> u32
    requires { layer < max_layers }
    ensures { RelevantLayers lower.now layer off result }
{
    let under = lower[layer];
    let all = under | (1 << layer);
    all & !off
}

// What the table of a driven layer is made from: where the rules' records start in the book, the layer, the set of layers that are
// switched off, and each layer's mask of the layers below it.
#[derive(Clone, Copy)]
pub struct Source<'a> {
    pub book: &'a [u8],
    pub first: usize,
    pub layer: usize,
    pub off: u32,
    pub lower: [u32; MAX_LAYERS],
    pub ghost prepared: { Prepared book.now first lower } by { Prim.hlevel props },
    pub ghost layer_low: { layer < max_layers },
}

impl<'a> Source<'a> {
    pub fn rules(&self) -> RuleSection<'a>
        ensures { (result.book ≡ self.now.book) × (result.first ≡ self.now.first) }
    {
        RuleSection {
            book: self.book,
            first: self.first,
        }
    }

    // The mask of the layers whose rules count.
    pub fn relevant(&self) -> u32
        ensures { RelevantLayers self.now.lower self.now.layer self.now.off result }
    {
        relevant_layers(&self.lower, self.layer, self.off)
    }

    // Writes the table of the program at the layer, of the rules of that layer and of those below it that are not switched off, and says
    // how many rows it has.
    pub fn rule_table(&self, rows: &mut [Row; MAX_RULES]) -> usize
        ensures { Filled (TableMade (program_of self.now.book.now self.now.layer self.now.off) self.now.book.now) rows.new result }
    {
        let count = make_rows(self.rules(), self.relevant(), rows);
        overridden_layers(self.book, &mut rows[..count], &self.lower);
        count
    }
}
