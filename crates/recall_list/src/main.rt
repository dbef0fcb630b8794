// A recall from end to end: the office enters a list and writes its table, and the roof asks the table about serials.
#![tactic(auto)]

use gf2::kinds::{Answer, Pair, Word};
use gf2::row::Row;
use gf2::sets::CellSet;
use readers::split::Split;
use runs::{Outcome, Step, Work, replay, replay_steps};
use shapes::shape::{Dims, Shape};

// The published example: four cells, three draws, three check bits, two notice bits, one block.
const DIMS: Dims = Dims {
    n: 4,
    k: 3,
    s: 3,
    r: 2,
    b: 1,
};

// The three serials on the list, and one that is not.
const CAT: [u8; 4] = [0xb8, 0x5c, 0x34, 0x1a];

const FISH: [u8; 4] = [0x87, 0x02, 0x4b, 0xb7];

const DOG: [u8; 4] = [0x3f, 0xa6, 0xd2, 0xdf];

const HORSE: [u8; 4] = [0x3f, 0x37, 0xa1, 0xa7];

// Its cell set is the sum of the three: with notice 3 it is dependent, with any other a conflict.
const SUM: [u8; 4] = [0x01, 0x20, 0x00, 0x00];

// The longest key. The split reader reads keys of four bytes alone.
const LONG: [u8; 64] = [0x2a; 64];

// A full row that holds nothing.
fn blank() -> Row<Pair<Word, CellSet>> {
    Row {
        cells: CellSet::empty(),
        answer: Pair::zero(),
    }
}

// A step whose work is still to be done.
fn ahead(work: Work<'_>) -> Step<'_> {
    Step {
        work,
        outcome: None,
    }
}

// Enters the list, asks which cells are bound, and writes the table.
fn office(rt: HostRuntime, shape: Shape, image: &mut [u8]) -> anyhow::Result<()> {
    let mut steps = [
        Work::Enter(&CAT, 0),
        Work::Enter(&FISH, 1),
        Work::Enter(&DOG, 2),
        Work::Count(0),
        Work::Bound(0, 0),
        Work::Bound(0, 1),
        Work::Bound(0, 2),
        Work::Bound(0, 3),
    ]
    .map(ahead);
    let written = replay_steps(&Split, shape, &mut [blank(); 4], &mut steps, image);
    print_each(rt, &steps)?;
    print_done(rt, &Work::Write, &Outcome::Wrote(written))
}

// Opens the image, and asks it about the serials.
fn roof(rt: HostRuntime, image: &[u8]) -> anyhow::Result<()> {
    let heap = rt.alloc();
    println!(rt; "{}", report::opened(heap, image)?)?;
    for serial in [CAT, FISH, DOG, HORSE] {
        println!(rt; "{}", report::asked(heap, image, &Split, &serial)?)?;
    }
    println!(rt; "{}", report::asked(heap, image, &Split, &LONG)?)?;
    Ok(())
}

// Enters the list, and then a serial that is dependent and one that conflicts.
fn disputes(rt: HostRuntime, shape: Shape) -> anyhow::Result<()> {
    let works = [
        Work::Enter(&CAT, 0),
        Work::Enter(&FISH, 1),
        Work::Enter(&DOG, 2),
        Work::Enter(&SUM, 3),
        Work::Enter(&SUM, 0),
    ];
    let mut outcomes = [Outcome::Wrote(Ok(0)); 5];
    // What the writing answered is of no interest here.
    let ran = replay(
        &Split,
        shape,
        &mut [blank(); 4],
        &works,
        &mut outcomes,
        &mut [0; 12],
    );
    if ran.is_some() {
        for (work, outcome) in works.iter().zip(&outcomes).skip(3) {
            print_done(rt, work, outcome)?;
        }
    }
    Ok(())
}

// A line for each step that was done.
fn print_each(rt: HostRuntime, steps: &[Step]) -> anyhow::Result<()> {
    for step in steps {
        if let Some(outcome) = &step.outcome {
            print_done(rt, &step.work, outcome)?;
        }
    }
    Ok(())
}

// A line for a work and what it answered.
fn print_done(rt: HostRuntime, work: &Work, outcome: &Outcome) -> anyhow::Result<()> {
    println!(rt; "{}", report::done(rt.alloc(), work, outcome)?)?;
    Ok(())
}

fn main(rt: HostRuntime) -> anyhow::Result<()> {
    let shape = Shape::check(DIMS)?;
    let mut image = [0; 12];
    office(rt, shape, &mut image)?;
    roof(rt, &image)?;
    disputes(rt, shape)
}
