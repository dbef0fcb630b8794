// Why a call is refused: one type for the whole library.
ghost use Rattle.std.specs.Prelude.{◌≡◌, Some};
ghost use Rattle.shapes.specs.Faults.{named};
ghost use Rattle.shapes.specs.Texts.{layer_text, fault_text};
ghost use Rattle.shapes.specs.declared.fault.Fault.TheVariants.{TurnedDown};

use crate::limit::Limit;
use std::error::Error;
use std::fmt;

// Why and where a reader turns a key down, and how many layers stand above the reader that did so, up to 255.
// The reason is a number and no enum: readers of other makers have reasons of their own.
#[derive(Clone, Copy, PartialEq, Eq, Debug)]
pub struct Refusal {
    pub reason: u16,
    pub place: u32,
    pub depth: u8,
}

// The part of the library that a fault comes from.
#[derive(Clone, Copy, PartialEq, Eq, Debug)]
pub enum Layer {
    Shape,
    Draft,
    Reader,
    Table,
}

// The calls that read a key: entering it into a draft, asking a table about it.
#[derive(Clone, Copy, PartialEq, Eq, Debug)]
pub enum Caller {
    Draft,
    Table,
}

// What a call is refused with, and what goes with it.
#[derive(Clone, Copy, PartialEq, Eq, Debug)]
pub enum Fault {
    // A number of a shape is outside its limits: which.
    ShapeLimit(Limit),
    // A draft has too few rows: how many it needs.
    FewRows(u32),
    // The reader does not admit the shape.
    NotAdmitted(Caller),
    // The key has more than 64 bytes: how many.
    LongKey(Caller, usize),
    // The reader turned the key down.
    TurnedDown(Refusal),
    // The notice number does not fit the notice bits: how many these are.
    LargeNotice(u16),
    // No filling satisfies what is held and this entry: its block, and the slots whose entries say otherwise,
    // as words, since sets of cells are not known down here.
    Conflict(u16, [u64; 4]),
    // There is no such block.
    NoBlock,
    // There is no such cell.
    NoCell,
    // The buffer is shorter than the image: how long the image is.
    ShortBuffer(u32),
    // An image with no header of this version.
    NoHeader,
    // A number of an image's shape is outside its limits: which.
    HeaderLimit(Limit),
    // An image of another length than its shape gives: the length that it should have.
    ImageLength(u32),
    // A cell of an image holds a word of too many bits: which cell, from 0 through all blocks.
    LargeCell(u32),
}

impl Fault {
    // The fault's number, 1 to 13.
    pub fn number(&self) -> u8
        ensures { result ≡ (named self.now).number }
    {
        match self {
            Fault::ShapeLimit(_) => 1,
            Fault::FewRows(_) => 2,
            Fault::NotAdmitted(_) => 3,
            Fault::LongKey(_, _) => 4,
            Fault::TurnedDown(_) => 5,
            Fault::LargeNotice(_) => 6,
            Fault::Conflict(_, _) => 7,
            Fault::NoBlock | Fault::NoCell => 8,
            Fault::ShortBuffer(_) => 9,
            Fault::NoHeader => 10,
            Fault::HeaderLimit(_) => 11,
            Fault::ImageLength(_) => 12,
            Fault::LargeCell(_) => 13,
        }
    }

    // The place that goes with the number.
    pub fn place(&self) -> u64
        ensures { result ≡ (named self.now).place }
    {
        match self {
            Fault::ShapeLimit(limit) | Fault::HeaderLimit(limit) => u64::from(*limit),
            Fault::FewRows(rows) => *rows as u64,
            Fault::NotAdmitted(_) | Fault::NoHeader => 0,
            Fault::LongKey(_, len) => *len as u64,
            Fault::TurnedDown(refusal) => refusal.place as u64,
            Fault::LargeNotice(bits) => *bits as u64,
            Fault::Conflict(block, _) => *block as u64,
            Fault::NoBlock => 1,
            Fault::NoCell => 2,
            Fault::ShortBuffer(len) | Fault::ImageLength(len) => *len as u64,
            Fault::LargeCell(cell) => *cell as u64,
        }
    }

    // The layer that it comes from.
    pub fn layer(&self) -> Layer
        ensures { result ≡ (named self.now).layer }
    {
        match self {
            Fault::ShapeLimit(_) => Layer::Shape,
            Fault::NotAdmitted(Caller::Draft) | Fault::LongKey(Caller::Draft, _) => Layer::Draft,
            Fault::NotAdmitted(Caller::Table) | Fault::LongKey(Caller::Table, _) => Layer::Table,
            Fault::TurnedDown(_) => Layer::Reader,
            Fault::FewRows(_)
            | Fault::LargeNotice(_)
            | Fault::Conflict(_, _)
            | Fault::NoBlock
            | Fault::NoCell
            | Fault::ShortBuffer(_) => Layer::Draft,
            Fault::NoHeader | Fault::HeaderLimit(_) | Fault::ImageLength(_) | Fault::LargeCell(_) =>
                Layer::Table,
        }
    }
}

// A reader's refusal is carried whole.
impl From<Refusal> for Fault {
    ghost from_gives = { λ e f. f ≡ TurnedDown e };

    fn from(e: Refusal) -> Fault {
        Fault::TurnedDown(e)
    }
}

// A layer's name.
impl fmt::Display for Layer {
    ghost output = { λ layer. Some (layer_text layer) };

    fn fmt<W: fmt::Write>(&self, f: &mut fmt::Formatter<W>) -> fmt::Result {
        f.write_str(match self {
            Layer::Shape => "shape",
            Layer::Draft => "draft",
            Layer::Reader => "reader",
            Layer::Table => "table",
        })
    }
}

// A fault's number, place and layer.
impl fmt::Display for Fault {
    ghost output = { λ fault. Some (fault_text fault) };

    fn fmt<W: fmt::Write>(&self, f: &mut fmt::Formatter<W>) -> fmt::Result {
        let number = self.number();
        let place = self.place();
        let layer = self.layer();
        write!(f, "fault {number}, place {place}, layer {layer}")
    }
}

impl Error for Fault {}
