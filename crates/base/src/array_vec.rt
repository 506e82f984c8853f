// A list with room for N values. There is no heap, so what is made one by one is kept in such a list.

ghost use Rattle.std.specs.Prelude.{◌≡◌, ◌<◌, ◌≤◌, ◌++◌, ◌∷◌, ◌==◌, ◌↔◌, [], length, IsSome};
ghost use Rattle.std.specs.Option.{option_to_list};
ghost use Rattle.base.specs.Lists.{put_behind};

use std::marker::Model;

// Clauses see the list of the values that are there.
// Kept: no heap, so an array and how many of its values are in use.
#[derive(Drop)]
pub struct ArrayVec<T, const N: usize> {
    items: [T; N],
    count: usize,
}

impl<T, const N: usize> Model for ArrayVec<T, N> {
    ghost use Rattle.std.specs.Prelude.{◌≤◌, List, take};
    ghost use Rattle.std.specs.Coded.{coded_list};

    ghost Value = { List T };

    ghost coded = { coded_list T.code };

    ghost view = { λ v. take v.count v.items };

    ghost invariant = { λ v. v.count ≤ N };
}

impl<T: Copy, const N: usize> ArrayVec<T, N> {
    // An empty list. A blank stands where no value does.
    pub fn new(blank: T) -> Self
        ensures { result ≡ [] }
    {
        ArrayVec {
            items: [blank; N],
            count: 0,
        }
    }

    pub fn as_slice(&self) -> &[T]
        ensures value { result.now ≡ self.now }
        ensures few { length result.now ≤ N }
    {
        &self.items[..self.count]
    }

    // Whether there is no room left.
    pub fn is_full(&self) -> bool
        ensures value { result ≡ (length self.now == N) }
        ensures few { length self.now ≤ N }
    {
        self.count == N
    }

    pub fn push(&mut self, item: T)
        requires { length self.old < N }
        ensures { self.new ≡ self.old ++ item ∷ [] }
    {
        self.items[self.count] = item;
        self.count += 1;
    }

    // Puts a value behind the others, if there is one and there is room for it.
    pub fn put(&mut self, entry: Option<T>)
        ensures value { self.new ≡ put_behind self.old N entry }
        ensures few { length self.new ≤ N }
    {
        if self.is_full() {
            return;
        }
        if let Some(item) = entry {
            self.push(item);
        }
    }

    // Takes the last value away, if there is one.
    pub fn pop(&mut self) -> Option<T>
        ensures value { self.old ≡ self.new ++ option_to_list result }
        ensures some { IsSome result ↔ (0 < length self.old) }
    {
        if self.count == 0 {
            return None;
        }
        self.count -= 1;
        Some(self.items[self.count])
    }

    pub fn clear(&mut self)
        ensures { self.new ≡ [] }
    {
        self.count = 0;
    }
}
