//! Orders come, lose shares and go.
ghost use Rattle.std.specs.Prelude.{◌≡◌, ◌+◌, ◌<◌, ◌≤◌, [], ◌∷◌, ◌++◌, length, get_or, take, drop, filter, nat_lt, slice_index_or, slice_set};
ghost use Rattle.orders.specs.Rows.{rows_of, less};

use super::{OrderTable, Resting};

impl Resting {
    /// So many shares rest no more.
    fn decrement(&mut self, n: u32)
        requires { n ≤ self.old.quantity }
        ensures { self.new ≡ less self.old n }
    {
        self.quantity -= n;
    }
}

impl OrderTable {
    /// An order comes to rest, last.
    pub fn push(&mut self, row: Resting)
        requires { length (rows_of self.old) < 128 }
        ensures { rows_of self.new ≡ rows_of self.old ++ row ∷ [] }
    {
        self.rows.push(row);
    }

    /// The order at `i` has `n` shares fewer at rest. No other row changes.
    pub fn decrement(&mut self, i: usize, n: u32)
        requires place { i < length (rows_of self.old) }
        requires there { (d : Resting) → n ≤ (get_or (rows_of self.old) i d).quantity }
        ensures { (d : Resting) → rows_of self.new ≡ slice_set (rows_of self.old) i (less (slice_index_or (rows_of self.old) i d) n) }
    {
        self.rows.edit(i, |row| row.decrement(n));
    }

    /// The order at `i` goes.
    pub fn remove(&mut self, i: usize)
        requires { i < length (rows_of self.old) }
        ensures { rows_of self.new ≡ take i (rows_of self.old) ++ drop (i + 1) (rows_of self.old) }
    {
        self.rows.remove(i);
    }

    /// All orders go.
    pub fn clear(&mut self)
        ensures { rows_of self.new ≡ [] }
    {
        self.rows.clear();
    }

    /// Orders of which nothing rests go.
    pub fn drop_spent(&mut self)
        ensures { rows_of self.new ≡ filter (λ r. nat_lt 0 r.quantity) (rows_of self.old) }
    {
        self.rows.retain(|row| row.quantity > 0);
    }
}
