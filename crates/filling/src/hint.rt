// What one filling leaves for the next: the literal that each row watches, and then the trail and the waiting lists. Nothing rests on it
// but speed, so contracts say only what there is at first.

ghost use Rattle.std.specs.Prelude.{IsNone, ◌≡◌, ◌<◌, ◌≤◌, replicate};
ghost use Rattle.base.specs.Bounds.{max_atoms, max_names, max_rules};

use base::{ArrayVec, MAX_ATOMS, MAX_NAMES, MAX_RULES};
use format::Literal;
use table::name_of;

// Rows or names, as many as there are rules.
type Pile = ArrayVec<u16, MAX_RULES>;

// Puts a number behind the others. A full pile is begun anew.
fn push(pile: &mut Pile, number: usize) {
    if pile.is_full() {
        pile.clear();
    }
    pile.push((number % 65536) as u16);
}

// The name under which a row waits for a literal: that of the literal, cut to the bound on facts.
fn waiting_name(l: Literal) -> usize
    ensures { result < max_names }
{
    name_of(Literal {
        atom: l.atom % MAX_ATOMS,
        negated: l.negated,
    })
}

// The row that a link leads to, if it leads to one.
fn linked(link: u16) -> Option<usize> {
    usize::from(link).checked_sub(1)
}

// Kept: links beside each other in arrays of the most rows and names, since there is no heap for lists of their own.
#[derive(Drop)]
pub struct Hints {
    // The number of the literal that each row last waited for.
    watched: [u16; MAX_RULES],
    // The rows in the order in which they added their heads, once a filling has needed the waiting lists.
    trail: Option<Pile>,
    // The first row that waits for each name, and the next that waits for the same as a row: row j as j + 1, and 0 where there is none.
    // Kept: an Option takes twice the bytes, and all that a call blanks then outgrows a processor's first cache.
    first_waiting: [u16; MAX_NAMES],
    next_waiting: [u16; MAX_RULES],
    // The names just marked: a row marks its head once.
    marked: Pile,
}

impl Hints {
    // Each row watches its first literal, and there is no trail.
    pub fn new() -> Hints
        ensures watched { result.watched ≡ replicate max_rules 0 }
        ensures trail { IsNone result.trail }
    {
        Hints {
            watched: [0; MAX_RULES],
            trail: None,
            first_waiting: [0; MAX_NAMES],
            next_waiting: [0; MAX_RULES],
            marked: Pile::new(0),
        }
    }

    // The number of the literal that a row watches.
    pub(crate) fn watched(&self, j: usize) -> usize {
        self.watched.get(j).map_or(0, |i| usize::from(*i))
    }

    // The rows of the trail, in the order in which they added their heads.
    pub(crate) fn trail(&self) -> &[u16] {
        self.trail.as_ref().map_or(&[], |trail| trail.as_slice())
    }

    // Puts a row that has added its head on the trail, where one is kept.
    pub(crate) fn remember(&mut self, j: usize) {
        if let Some(trail) = &mut self.trail {
            push(trail, j);
        }
    }

    // Begins the waiting lists of the first n facts and of their negations. The links of an earlier filling are still there: those of the
    // names are cleared at once, a row's own when it is first taken up.
    pub(crate) fn begin(&mut self, n: usize)
        requires { n ≤ max_atoms }
    {
        if self.trail.is_none() {
            self.trail = Some(Pile::new(0));
        }
        self.first_waiting[..n].fill(0);
        self.first_waiting[MAX_ATOMS..MAX_ATOMS + n].fill(0);
    }

    // Lets a row wait for the literal i of its body.
    pub(crate) fn wait(&mut self, j: usize, i: usize, l: Literal) {
        if j < MAX_RULES {
            let h = waiting_name(l);
            self.watched[j] = (i % 65536) as u16;
            self.next_waiting[j] = self.first_waiting[h];
            self.first_waiting[h] = (j + 1) as u16;
        }
    }

    // Takes a row up for the first time: it is the last of its list.
    pub(crate) fn take_up(&mut self, j: usize) {
        if j < MAX_RULES {
            self.next_waiting[j] = 0;
        }
    }

    // The first row that waits for a name.
    pub(crate) fn first_waiting(&self, h: usize) -> Option<usize> {
        linked(*self.first_waiting.get(h)?)
    }

    // The row that waits behind another for the same name.
    pub(crate) fn next_waiting(&self, j: usize) -> Option<usize> {
        linked(*self.next_waiting.get(j)?)
    }

    // Puts a name that was marked on those just marked.
    pub(crate) fn push_marked(&mut self, h: usize) {
        push(&mut self.marked, h);
    }

    // Takes the name that was marked last, if there is one.
    pub(crate) fn pop_marked(&mut self) -> Option<usize> {
        self.marked.pop().map(usize::from)
    }
}
