// What follows of rows: each function's contract is one theorem.
ghost use Rattle.gf2.specs.Theorems.{ReductionIsSeen, BindingIsSeen, OthersStay};

use crate::kinds::Answer;
use crate::marked::Marked;

// A reduction of rows is one of their words and slot sets.
pub fn reduction_is_seen<K: Marked>()
    ensures { ReductionIsSeen K.Answer.mean K.Answer.kind K.Marked.view }
{}

// A row put among rows is put among their words and slot sets.
pub fn binding_is_seen<K: Marked>()
    ensures { BindingIsSeen K.Answer.mean K.Answer.kind K.Marked.view }
{}

// A row put in one block leaves the rows of every other as they were.
pub fn others_stay<K: Answer>()
    ensures { OthersStay K.Answer.mean K.Answer.kind }
{}
