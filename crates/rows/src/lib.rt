// An append list over memory that the host lends: rows of any one type, in the order in which they were appended.
#![tactic(auto)]

ghost use Rattle.std.specs.Prelude.{◌≡◌, ◌≤◌, ◌↔◌, length as length_of, IsTrue, MatchOption, slice_get};
ghost use Rattle.rows.specs.Held.{held, Absent, Row};

mod change;

// The rows appended are the first `length` of the memory, which has a fixed size: the library has no heap.
#[derive(Drop)]
pub struct Rows<'m, T> {
    rows: &'m mut [T],
    length: usize,
    ghost inside: { length ≤ length_of rows.now },
}

// The memory has no place for one more row.
#[derive(Clone, Copy, PartialEq, Eq, Debug)]
pub struct Full;

// The list has no row at a place.
#[derive(Clone, Copy, PartialEq, Eq, Debug)]
pub struct NoRow;

// A row of a slice, whatever its rows are.
fn fetch<T: Copy>(rows: &[T], at: usize) -> Option<T>
    ensures { result ≡ slice_get rows.now at }
{
    rows.get(at).copied()
}

// A clause `memory` says that a call keeps the reference; a model in its place was tried, and no caller could prove what its memory holds after the list.
impl<'m, T: Copy> Rows<'m, T> {
    pub fn new(memory: &'m mut [T]) -> Rows<'m, T>
        ensures rows { result.rows.now ≡ memory.old }
        ensures count { result.length ≡ 0 }
        ensures memory { result.rows.ghost_name ≡ memory.entry.ghost_name }
    {
        Rows {
            rows: memory,
            length: 0,
        }
    }

    pub fn len(&self) -> usize
        ensures { result ≡ self.now.length }
    {
        self.length
    }

    pub fn is_empty(&self) -> bool
        ensures { IsTrue result ↔ (self.now.length ≡ 0) }
    {
        self.len() == 0
    }

    // How many rows the memory has place for.
    pub fn room(&self) -> usize
        ensures { result ≡ length_of self.now.rows.now }
    {
        self.rows.len()
    }

    pub fn get(&self, at: usize) -> Option<T>
        ensures { MatchOption result (Absent self.now.rows.now self.now.length at) (λ row. Row self.now.rows.now self.now.length at row) }
    {
        fetch(self.as_slice(), at)
    }

    // The rows appended.
    pub fn as_slice(&self) -> &[T]
        ensures { result.now ≡ held self.now.rows.now self.now.length }
    {
        &self.rows[..self.length]
    }
}
