// The elimination in one block, on a slice of records: reducing a row, binding it, and reading out the words.
// The container hands its slice on with the block, so that nothing here depends on who holds the rows.
ghost use Rattle.std.specs.Prelude.{◌≡◌, ◌<◌, length, MatchOption};
ghost use Rattle.gf2.specs.Masks.{width, mask, PutIn};
ghost use Rattle.gf2.specs.Rows.{Missing, Own, Reduction, BindingIn};
ghost use Rattle.span.specs.Fillings.{xor_over};
ghost use Rattle.gf2.specs.Fills.{word_at, NoCell, MadeOf, SubstitutionIn, FillingIn};

use crate::kinds::{Answer, Word};
use crate::marked::Marked;
use crate::row::{Block, Misfit, Row};
use crate::sets::CellSet;

pub mod rows;

// The block's own rows, one for each cell; none where they are not all there.
fn own_rows<K>(records: &[Row<K>], block: Block) -> Option<&[Row<K>]>
    ensures { MatchOption result (Missing records.now block) (λ own. Own records.now block own.now) }
{
    records.get(block.start..)?.get(..block.n)
}

// Adds to the row the row of each bound cell that it comes to hold, going from one such cell to the next.
fn reduce<K: Answer>(records: &[Row<K>], block: Block, row: Row<K>) -> Option<Row<K>>
    ensures { MatchOption result (Missing records.now block) (Reduction K.Answer.mean K.Answer.kind records.now block row) }
{
    let own = own_rows(records, block)?;
    let mut left = row;
    let mut from = 0;
    // Each sum changes which cells there are: the next one is looked for anew, past the last.
    while let Some(cell) = left.cells.first_common(block.bound, from) {
        if cell >= own.len() {
            return Some(left);
        }
        left = left.plus(own[cell]);
        from = cell + 1;
    }
    Some(left)
}

// The set with the cell put in.
fn with(set: CellSet, cell: usize) -> CellSet
    requires { cell < width }
    ensures { PutIn (mask set) cell (mask result) }
{
    if set.contains(cell) {
        set
    } else {
        set.toggled(cell)
    }
}

// Writes the row at its lead cell, and gives the bound set with that cell; the set as it was where there is no such cell, since this cannot fail.
fn bind<K: Answer>(records: &mut [Row<K>], block: Block, row: Row<K>) -> CellSet
    ensures { BindingIn K.Answer.mean K.Answer.kind records.old block row records.new (mask result) }
{
    if own_rows(records, block).is_none() {
        return block.bound;
    }
    match row.cells.lead() {
        Some(cell) if cell < block.n => {
            records[block.start + cell] = row;
            with(block.bound, cell)
        }
        _ => block.bound,
    }
}

// ---- reading out the words, by substitution back from the last cell to the first

// The XOR of the words over a set of cells.
fn xor_over(words: &[u64], cells: CellSet) -> u64
    ensures { result ≡ xor_over (word_at words.now) (length words.now) (mask cells) }
{
    let mut total = 0;
    for (cell, word) in words.iter().enumerate() {
        if cells.contains(cell) {
            total ^= *word;
        }
    }
    total
}

// What the word of a cell is made of: the other cells of its row, and its row's word; nothing where the cell is free.
fn made_of<K: Marked>(row: Row<K>, bound: CellSet, cell: usize) -> Row<Word>
    ensures { MadeOf K.Marked.view K.Marked.marks row bound cell result }
{
    if bound.contains(cell) {
        Row {
            cells: row.cells.toggled(cell),
            answer: Word(row.answer.word()),
        }
    } else {
        Row {
            cells: CellSet::empty(),
            answer: Word(0),
        }
    }
}

// The same of a cell of the block; none where it has no such cell, or its rows are not all there.
fn substitute<K: Marked>(records: &[Row<K>], block: Block, cell: usize) -> Option<Row<Word>>
    ensures { MatchOption result (NoCell records.now block cell) (SubstitutionIn K.Marked.view K.Marked.marks records.now block cell) }
{
    let own = own_rows(records, block)?;
    let row = own.get(cell)?;
    Some(made_of(*row, block.bound, cell))
}

// Writes a word for each cell: those that satisfy every bound row, with zero in the free cells.
fn fill<K: Marked>(records: &[Row<K>], block: Block, words: &mut [u64]) -> Result<(), Misfit>
    ensures { FillingIn K.Marked.view K.Marked.marks records.now block words.old result words.new }
{
    let own = own_rows(records, block).ok_or(Misfit)?;
    if words.len() != own.len() {
        return Err(Misfit);
    }
    // By number: each word is made of all words behind it.
    for cell in (0..own.len()).rev() {
        let row = made_of(own[cell], block.bound, cell);
        words[cell] = row.answer.0 ^ xor_over(words, row.cells);
    }
    Ok(())
}
