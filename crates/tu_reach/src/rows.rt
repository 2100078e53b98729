ghost use Rattle.std.specs.Prelude.{◌≡◌, ◌<◌, [], length, OnOk};
ghost use Rattle.std.specs.List.{All};
ghost use Rattle.tu_reach.specs.Rows.{row, HasOneMore, IsExtended};

use sqlite_items::Items;
use std::alloc::Global;
use std::marker::Model;
use tu_base::Memory;

/// Numbers of texts in rows: for each text those that call it, or for each variable those that
/// touch it.
#[derive(Drop)]
pub struct Rows {
    texts: usize,
    rows: Vec<Items<usize>>,
}

impl Model for Rows {
    ghost use Rattle.std.specs.Prelude.{ℕ, ◌<◌};
    ghost use Rattle.tu_reach.specs.Rows.{RowsOf, HasNumber};

    ghost Value = { RowsOf };

    ghost view = { λ r. record { texts = r.texts; rows = r.rows.items } };

    ghost invariant = { λ r. (k a : ℕ) → HasNumber r.rows.items k a → a < r.texts };
}

// Has a row under a number, empty if it is new.
fn extend(alloc: Global, rows: &mut Vec<Items<usize>>, number: usize) -> Result<(), Memory>
    ensures long { OnOk result (number < length rows.new.items) }
    ensures same { IsExtended rows.old.items rows.new.items }
{
    while rows.len() <= number {
        rows.push(Items::new(alloc))?;
    }
    Ok(())
}

impl Rows {
    /// No numbers, for so many texts.
    pub fn new(alloc: Global, texts: usize) -> Rows
        ensures texts { result.texts ≡ texts }
        ensures none { result.rows ≡ [] }
    {
        Rows {
            texts,
            rows: Vec::new(alloc),
        }
    }

    /// How many texts there are.
    pub fn texts(&self) -> usize
        ensures { result ≡ self.now.texts }
    {
        self.texts
    }

    /// Adds the number of a text to a row.
    pub fn add(&mut self, alloc: Global, number: usize, text: usize) -> Result<(), Memory>
        requires { text < self.old.texts }
        ensures texts { self.new.texts ≡ self.old.texts }
        ensures added { OnOk result (HasOneMore self.old.rows self.new.rows number text) }
    {
        extend(alloc, &mut self.rows, number)?;
        self.rows[number].push(text)?;
        Ok(())
    }

    /// The row under a number.
    pub fn row(&self, number: usize) -> &[usize]
        ensures value { result.now ≡ row self.now.rows number }
        ensures below { All (λ a. a < self.now.texts) result.now }
    {
        match self.rows.get(number) {
            None => &[],
            Some(row) => row.as_slice(),
        }
    }
}
