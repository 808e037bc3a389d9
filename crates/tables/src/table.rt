//! Tables: at most N items, in the order in which they came.
ghost use Rattle.std.specs.Prelude.{◌≡◌, ◌≤◌, List, [], length, take, nat_lt};
ghost use Rattle.tables.specs.Table.{with_last};

use std::marker::Model;

#[derive(Drop)]
pub struct Table<T, const N: usize> {
    // In place with a count beside, since a table wants no heap; the cells from `count` on may hold anything.
    cells: [T; N],
    count: usize,
}

// A clause sees a table as the list of its items.
impl<T, const N: usize> Model for Table<T, N> {
    ghost Value = { List T };

    ghost view = { λ t. take t.count t.cells };

    ghost invariant = { λ t. t.count ≤ N };
}

impl<T: Copy, const N: usize> Table<T, N> {
    // An empty table, with `unused` in its cells.
    pub fn new(unused: T) -> Table<T, N>
        ensures { result ≡ [] }
    {
        Table {
            cells: [unused; N],
            count: 0,
        }
    }

    pub fn as_slice(&self) -> &[T]
        ensures items { result.now ≡ self.now }
        ensures few { length self.now ≤ N }
    {
        &self.cells[..self.count]
    }

    // One item more at the end, if there is room for it; whether there was. A yes or a no says all: the item is a
    // copy, so a `Result` would have nothing to hand back.
    pub fn push(&mut self, item: T) -> bool
        ensures says { result ≡ nat_lt (length self.old) N }
        ensures holds { self.new ≡ with_last N self.old item }
        ensures few { length self.new ≤ N }
    {
        if self.count >= N {
            return false;
        }
        self.cells[self.count] = item;
        self.count += 1;
        true
    }
}
