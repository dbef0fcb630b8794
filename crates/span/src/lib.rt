// The mathematics under the elimination, with no code: each function's contract is one theorem.
#![tactic(auto)]

ghost use Rattle.span.specs.Kinds.{Kind};
ghost use Rattle.span.specs.Marked.{Marks};
ghost use Rattle.span.specs.Theorems.{XorIsDifference, XorOverIsLinear, HeldIsAnswered, CombinationsFollow, ReductionIsOne, StepStands, BoundIsBound, ConflictIsConflict, TableIsOne, SubstitutionGoesDown, SubstitutionSolves, RowsGiveTable, StandingIsSolvable, HeldHasTable, BoundInAnyOrder, SameHeldSameTable, RunIsOne, RunIsHeld, OpenStands, Decides, WordsStand, SameRowsStand, SlotsCountBound, RunHasState, NamesSlots, ConflictNamesSlots, SlotsAreOne, BlocksAreApart, OwnBlockDecides, HeldIsOne, BlockHoldsItsOwn, BlocksHaveRuns, BlocksInAnyOrder, BlocksHaveTable, BlocksSameTable, AllHeldInAnyOrder};

// A theorem about every answer kind is about every one of these.
pub trait AnswerKind: Sized {
    ghost Value: { Type 0 };

    ghost kind: { Kind Value };
}

// The XOR of two sets, as numbers, is their symmetric difference.
pub fn xor_is_difference()
    ensures { XorIsDifference }
{}

// The XOR of the words over a symmetric difference is the XOR of the two XORs.
pub fn xor_over_is_linear()
    ensures { XorOverIsLinear }
{}

// A filling that satisfies an entry answers with the two numbers that its word was put together from.
pub fn held_is_answered()
    ensures { HeldIsAnswered }
{}

// A filling that satisfies all entries satisfies each combination of them.
pub fn combinations_follow()
    ensures { CombinationsFollow }
{}

// Each row reduces, and to one row only.
pub fn reduction_is_one<K: AnswerKind>()
    ensures { ReductionIsOne K.AnswerKind.kind }
{}

// One entry more: the state after it stands for the entries with it.
pub fn step_stands<K: AnswerKind>()
    ensures { StepStands K.AnswerKind.kind }
{}

// The bound cells are exactly the cells that lead some combination of the entries' cell sets.
pub fn bound_is_bound<K: AnswerKind>()
    ensures { BoundIsBound K.AnswerKind.kind }
{}

// An entry that reduces to a word alone is satisfied by no filling that satisfies the rest.
pub fn conflict_is_conflict()
    ensures { ConflictIsConflict }
{}

// Exactly one filling satisfies the rows and has zero in the free cells.
pub fn table_is_one()
    ensures { TableIsOne }
{}

// The word of one more cell, made from words above it, disturbs none of those.
pub fn substitution_goes_down()
    ensures { SubstitutionGoesDown }
{}

// Substitution back gives the filling that satisfies the rows and has zero in the free cells.
pub fn substitution_solves()
    ensures { SubstitutionSolves }
{}

// That filling is the table of the entries for which the rows stand.
pub fn rows_give_table()
    ensures { RowsGiveTable }
{}

// Entries for which a state stands can be satisfied.
pub fn standing_is_solvable()
    ensures { StandingIsSolvable }
{}

// After every list of enterings there is one table.
pub fn held_has_table()
    ensures { HeldHasTable }
{}

// The same enterings in another order bind the same cells, conflicts or not.
pub fn bound_in_any_order()
    ensures { BoundInAnyOrder }
{}

// Blocks that hold the same entries have the same table.
pub fn same_held_same_table()
    ensures { SameHeldSameTable }
{}

// What is held, and what stands in the slots, goes by the list of enterings alone.
pub fn run_is_one()
    ensures { RunIsOne }
{}

// What a run holds is what is held after its enterings.
pub fn run_is_held()
    ensures { RunIsHeld }
{}

// A state with no bound cell stands for nothing held, whatever its rows hold.
pub fn open_stands<K: AnswerKind>()
    ensures { (marks : Marks K.AnswerKind.kind) → OpenStands marks }
{}

// The reduction decides between slot, dependent and conflict: for words alone, and for words with slot sets.
pub fn decides<K: AnswerKind>()
    ensures { (marks : Marks K.AnswerKind.kind) → Decides marks }
{}

// The words of a state's rows stand for what is held.
pub fn words_stand<K: AnswerKind>()
    ensures { (marks : Marks K.AnswerKind.kind) → WordsStand marks }
{}

// A state with the same bound cells and the same rows stands for the same.
pub fn same_rows_stand<K: AnswerKind>()
    ensures { (marks : Marks K.AnswerKind.kind) → SameRowsStand marks }
{}

// A block has as many slots as bound cells.
pub fn slots_count_bound<K: AnswerKind>()
    ensures { (marks : Marks K.AnswerKind.kind) → SlotsCountBound marks }
{}

// Each run has a state that stands for what it holds.
pub fn run_has_state<K: AnswerKind>()
    ensures { (marks : Marks K.AnswerKind.kind) → RunHasState marks }
{}

// The slots that a conflict shows are to blame; words alone show none.
pub fn names_slots()
    ensures { NamesSlots }
{}

// An entry that cannot be taken has one set of slots to blame.
pub fn conflict_names_slots()
    ensures { ConflictNamesSlots }
{}

// The set of slots that sums to a held combination is one set.
pub fn slots_are_one()
    ensures { SlotsAreOne }
{}

// All entries can be satisfied at once when each block's can.
pub fn blocks_are_apart()
    ensures { BlocksAreApart }
{}

// Whether an entry can be taken is decided by its own block.
pub fn own_block_decides()
    ensures { OwnBlockDecides }
{}

// What is held goes by the list of enterings alone.
pub fn held_is_one()
    ensures { HeldIsOne }
{}

// Each block holds what its own enterings make it hold.
pub fn block_holds_its_own()
    ensures { BlockHoldsItsOwn }
{}

// Each block's own enterings are a run, with one list of slots.
pub fn blocks_have_runs()
    ensures { BlocksHaveRuns }
{}

// The same enterings in another order bind the same cells of each block.
pub fn blocks_in_any_order()
    ensures { BlocksInAnyOrder }
{}

// After every list of enterings there is one table of all blocks.
pub fn blocks_have_table()
    ensures { BlocksHaveTable }
{}

// Where the same entries are held, all blocks have the same table.
pub fn blocks_same_table()
    ensures { BlocksSameTable }
{}

// Enterings that can all be satisfied at once are all held, in any order, with one table.
pub fn all_held_in_any_order()
    ensures { AllHeldInAnyOrder }
{}
