ghost use Rattle.tu_outside.specs.declared.memory_notes.Cell.{Cell};
ghost use Rattle.std.specs.Prelude.{List, ◌≢◌, MatchOption, ◌≡◌, ◌+◌, ◌≤◌, ◌++◌, length, vec_len, vec_capacity, Some, OnOk, OnErr, IfOk, is_ok, IsTrue, ◌↔◌};
ghost use Rattle.tu_outside.specs.Plan.{admits};
ghost use Rattle.tu_outside.specs.Devices.{fresh_notes, after_line};
ghost use Rattle.tu_outside.specs.Cells.{line_cells, cells_of};

use crate::plan::Plan;
use crate::{NoteFault, Notes};
use std::alloc::Global;
use std::marker::Model;
use tu_base::{Bytes, Memory, Numbers, Words};

// One buffer holds all lines, since a line may have any byte in it.
#[derive(Clone, Copy, Drop)]
enum Cell {
    Byte(u8),
    End,
}

/// Notes in memory. Chosen calls fail.
pub struct MemoryNotes {
    cells: Vec<Cell>,
    plan: Plan,
}

// Written, so that a crate that drops this calls it, and does not prove anew how each part is dropped.
impl Drop for MemoryNotes {
    fn drop(self) {
        let MemoryNotes { cells: _, plan: _ } = self;
    }
}

impl Model for MemoryNotes {
    ghost use Rattle.std.specs.Prelude.{◌≡◌, ◌+◌, ◌≤◌, [], vec_len, vec_capacity};
    ghost use Rattle.tu_outside.specs.Devices.{NotesState};
    ghost use Rattle.tu_outside.specs.Cells.{lines_of, pending_after};

    ghost Value = { NotesState };

    ghost view = { λ n. record { lines = lines_of n.cells.items; plan = n.plan } };

    // The last line has its end, and what is left of the reserve is there.
    ghost invariant = { λ n. (pending_after [] n.cells.items ≡ []) × (vec_len n.cells + n.plan.reserve ≤ vec_capacity n.cells) };
}

impl MemoryNotes {
    /// Notes with no lines and no reserve. The calls of `line`, counted from 1, fail at the
    /// numbers in `fail`.
    pub fn make(alloc: Global, fail: &Numbers) -> Result<MemoryNotes, Memory>
        ensures { IfOk result (λ notes. notes ≡ fresh_notes fail.now) }
    {
        let plan = Plan::new(alloc, fail)?;
        Ok(MemoryNotes {
            cells: Vec::new(alloc),
            plan,
        })
    }

    /// Sets the reserve: how many more bytes can be noted, where each line takes those of its text
    /// and one more. A line that does not fit fails.
    pub fn reserve(&mut self, bytes: u64) -> Result<(), Memory>
        ensures ok { OnOk result (self.new ≡ record self.old { plan = record self.old.plan { reserve = bytes } }) }
        ensures err { OnErr result (self.new ≡ self.old) }
    {
        self.cells.reserve(bytes as usize)?;
        self.plan.set_reserve(bytes);
        Ok(())
    }

    /// Whether the lines so far are these.
    #[tactic(auto, using(crate::proofs::CellLemmas::whole_cells, crate::proofs::CellLemmas::lines_of_cells))]
    pub fn same(&self, expected: &Words) -> bool
        ensures { IsTrue result ↔ (self.now.lines ≡ expected.now) }
    {
        are_cells_of(&self.cells, expected.as_slice())
    }

    /// How many lines were refused.
    pub fn fault_count(&self) -> u64
        ensures { result ≡ self.now.plan.faults }
    {
        self.plan.faults()
    }
}

// The cells after a line, where they begin with it.
fn strip_line<'a>(cells: &'a [Cell], text: &[u8]) -> Option<&'a [Cell]>
    ensures { MatchOption result ((rest : List Cell) → cells.now ≢ line_cells text.now ++ rest) (λ rest. cells.now ≡ line_cells text.now ++ rest.now) }
{
    match text {
        [] => match cells {
            [] => None,
            [Cell::Byte(_), ..] => None,
            [Cell::End, rest @ ..] => Some(rest),
        },
        [byte, more @ ..] => match cells {
            [] => None,
            [Cell::End, ..] => None,
            [Cell::Byte(first), rest @ ..] => {
                if byte == first {
                    strip_line(rest, more)
                } else {
                    None
                }
            }
        },
    }
}

fn are_cells_of(cells: &[Cell], lines: &[Bytes]) -> bool
    ensures { IsTrue result ↔ (cells.now ≡ cells_of lines.now) }
{
    match lines {
        [] => cells.is_empty(),
        [line, more @ ..] => match strip_line(cells, line.as_slice()) {
            Some(rest) => are_cells_of(rest, more),
            None => false,
        },
    }
}

// Appends a line to cells that have room for it.
fn append_line(cells: &mut Vec<Cell>, text: &[u8])
    requires { vec_len cells.old + (length text.now + 1) ≤ vec_capacity cells.old }
    ensures items { cells.new.items ≡ cells.old.items ++ line_cells text.now }
    ensures len { vec_len cells.new ≡ vec_len cells.old + (length text.now + 1) }
    ensures capacity { vec_capacity cells.old ≤ vec_capacity cells.new }
{
    for byte in text {
        cells.push(Cell::Byte(*byte)).unwrap();
    }
    cells.push(Cell::End).unwrap();
}

impl Notes for MemoryNotes {
    ghost lines = { λ n. Some n.lines };

    ghost faults = { λ n. n.plan.faults };

    #[tactic(auto, using(crate::proofs::CellLemmas::lines_of_more, crate::proofs::CellLemmas::pending_of_more))]
    fn line(&mut self, text: &[u8]) -> Result<(), NoteFault>
        ensures works { is_ok result ≡ admits self.old.plan (length text.now + 1) }
        ensures after { self.new ≡ after_line self.old text.now }
    {
        if !self.plan.admit((text.len() as u64).saturating_add(1)) {
            return Err(NoteFault);
        }
        append_line(&mut self.cells, text);
        Ok(())
    }
}
