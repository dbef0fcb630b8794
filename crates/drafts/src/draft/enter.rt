// Entering a key with a notice number.
ghost use Rattle.std.specs.Prelude.{◌≡◌, ◌+◌, ◌*◌, ◌^◌, ◌<◌, IfOk};
ghost use Rattle.std.specs.Result.{result_map_both};
ghost use Rattle.drafts.specs.Entries.{answer_bits, notice_in};
ghost use Rattle.drafts.specs.Standing.{dims_of};
ghost use Rattle.drafts.specs.Entering.{Holds, Enters, entry_in};
ghost use Rattle.drafts.specs.Steps.{placed, Within, Sorted, Judges, Puts};

use crate::draft::Draft;
use crate::entry::Entry;
use crate::tally::Noted;
use gf2::marked::Marked;
use gf2::row::Row;
use readers::reader::{Reader, clause_for};
use shapes::fault::{Caller, Fault};
use shapes::shape::Shape;

// Answered in the place of a slot: the entry is dependent. No block has so many slots.
// A number and no enum: block and slot go into a list or a log as they are.
pub const DEPENDENT: u16 = 65535;

// What is left of an entry when its block's rows are reduced out of it.
enum Verdict<K> {
    // A row with cells: one of them becomes bound.
    Binds(Row<K>),
    // Nothing.
    Dependent,
    // A word and no cell: these slots say otherwise.
    Conflict([u64; 4]),
}

impl<K: Marked> Draft<'_, K> {
    // Enters a key with its notice number: the entry's block and slot, or `DEPENDENT` in the slot's place.
    // That the rows are still the lender's own (`lent`) is said of each call that has the draft by `&mut`: it is no fact of one value.
    pub fn enter<R: Reader>(
        &mut self,
        reader: &R,
        key: &[u8],
        notice: u32,
    ) -> Result<(u16, u16), Fault>
        ensures enters { Enters K.Marked.view K.Marked.marks K.Marked.blame self.old (entry_in (R.Reader.meaning reader.now) self.old key.now notice) result self.new }
        ensures lent { self.new.rows.records.ghost_name ≡ self.old.rows.records.ghost_name }
    {
        let entry = self.entry_for(reader, key, notice)?;
        self.hold(entry)
    }

    // The entry of a key, with the faults that come before it.
    fn entry_for<R: Reader>(&self, reader: &R, key: &[u8], notice: u32) -> Result<Entry, Fault>
        ensures makes { result_map_both placed (λ e. e) result ≡ entry_in (R.Reader.meaning reader.now) self.now key.now notice }
        ensures within { IfOk result (λ e. Within self.now (placed e)) }
    {
        self.check_rows()?;
        let clause = clause_for(reader, &self.shape, key, Caller::Draft)?;
        check_notice(&self.shape, notice)?;
        Ok(Entry {
            block: clause.block,
            cells: clause.cells,
            answer: answer(&self.shape, clause.check, notice),
        })
    }

    // Takes an entry, or refuses it as a conflict. `Within` stays a clause: a type of a draft and such an entry would hold the `&mut`,
    // and this contract would speak of `self.exit.0.now`.
    fn hold(&mut self, entry: Entry) -> Result<(u16, u16), Fault>
        requires { Within self.old (placed entry) }
        ensures holds { Holds K.Marked.view K.Marked.marks K.Marked.blame self.old (placed entry) result self.new }
        ensures lent { self.new.rows.records.ghost_name ≡ self.old.rows.records.ghost_name }
    {
        match self.verdict(entry) {
            Verdict::Binds(row) => Ok((entry.block, self.bind(entry.block, row))),
            Verdict::Dependent => Ok((entry.block, DEPENDENT)),
            Verdict::Conflict(slots) => Err(Fault::Conflict(entry.block, slots)),
        }
    }

    // What becomes of the entry.
    fn verdict(&self, entry: Entry) -> Verdict<K>
        requires { Within self.now (placed entry) }
        ensures { Judges K.Answer.mean K.Answer.kind K.Marked.view K.Marked.marks K.Marked.blame self.now (placed entry) result }
    {
        let row = Row {
            cells: entry.cells,
            answer: K::of_word(entry.answer),
        };
        let place = self.block(entry.block as usize);
        sorted(self.rows.reduce(place, row).unwrap())
    }

    // Puts a row in its block with the next slot marked, and gives that slot.
    fn bind(&mut self, block: u16, row: Row<K>) -> u16
        requires { block < (dims_of self.old).b }
        ensures puts { Puts K.Answer.mean K.Answer.kind K.Marked.view K.Marked.marks self.old block row result self.new }
        ensures lent { self.new.rows.records.ghost_name ≡ self.old.rows.records.ghost_name }
    {
        let at = block as usize;
        let slot = self.tally.blocks[at].slots;
        let made = Row {
            cells: row.cells,
            answer: row.answer.marked(slot as usize),
        };
        let place = self.block(at);
        self.tally.blocks[at] = Noted {
            slots: slot.saturating_add(1),
            bound: self.rows.bind(place, made),
        };
        slot
    }
}

// What a reduced row says of its entry.
fn sorted<K: Marked>(left: Row<K>) -> Verdict<K>
    ensures { Sorted K.Marked.view K.Marked.marks left result }
{
    if !left.cells.is_empty() {
        Verdict::Binds(left)
    } else if left.answer.word() == 0 {
        Verdict::Dependent
    } else {
        Verdict::Conflict(left.answer.slots().words())
    }
}

// Refuses a notice number of more than r bits.
fn check_notice(shape: &Shape, notice: u32) -> Result<(), Fault>
    ensures { result_map_both (λ _. notice) (λ e. e) result ≡ notice_in shape.now.dims notice }
{
    let r = shape.dims().r;
    if notice as u64 >= 1 << r {
        return Err(Fault::LargeNotice(r));
    }
    Ok(())
}

// The check, and below it the notice number.
fn answer(shape: &Shape, check: u32, notice: u32) -> u64
    requires check { check < 2 ^ shape.now.dims.s }
    requires notice { notice < 2 ^ shape.now.dims.r }
    ensures is { result ≡ check * 2 ^ shape.now.dims.r + notice }
    ensures fits { result < 2 ^ answer_bits shape.now.dims }
{
    check as u64 * (1 << shape.dims().r) + notice as u64
}
