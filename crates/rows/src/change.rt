ghost use Rattle.std.specs.Prelude.{◌≡◌, ◌<◌, ◌≤◌, length, slice_set, IfErr, IfOk, MatchResult};
ghost use Rattle.rows.specs.Held.{Appended, Refused, Replaced, Kept};

use super::{Full, NoRow, Rows};

// Stores a row, if the slice has the place; over the slice, as `fetch`, whatever its rows are.
fn store<T: Copy>(rows: &mut [T], at: usize, row: T) -> Result<(), Full>
    ensures full { IfErr result (λ _. (length rows.old ≤ at) × (rows.new ≡ rows.old)) }
    ensures stored { IfOk result (λ _. (at < length rows.old) × (rows.new ≡ slice_set rows.old at row)) }
{
    if at >= rows.len() {
        return Err(Full);
    }
    rows[at] = row;
    Ok(())
}

impl<'m, T: Copy> Rows<'m, T> {
    // Gives the number of rows then, which is the new row's number counted from 1.
    pub fn push(&mut self, row: T) -> Result<usize, Full>
        ensures memory { self.new.rows.ghost_name ≡ self.old.rows.ghost_name }
        ensures change { MatchResult result (λ n. (n ≡ self.new.length) × Appended row self.old.rows.now self.old.length self.new.rows.now self.new.length) (λ _. Refused self.old.rows.now self.old.length self.new.rows.now self.new.length) }
    {
        store(self.rows, self.length, row)?;
        self.length += 1;
        Ok(self.length)
    }

    // Replaces a row.
    pub fn put(&mut self, at: usize, row: T) -> Result<(), NoRow>
        ensures memory { self.new.rows.ghost_name ≡ self.old.rows.ghost_name }
        ensures count { self.new.length ≡ self.old.length }
        ensures change { MatchResult result (λ _. Replaced row self.old.rows.now self.old.length at self.new.rows.now) (λ _. Kept self.old.rows.now self.old.length at self.new.rows.now) }
    {
        if at >= self.length {
            return Err(NoRow);
        }
        store(self.rows, at, row).or(Err(NoRow))
    }
}
