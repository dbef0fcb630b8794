// The roof's half of a recall: opens a table's image, asks it about serials, and prints each reply.
#![tactic(auto)]

use readers::split::Split;

// The published example: cells 25, 0, 26 and 9, with three serials on the list.
const IMAGE: [u8; 12] = [1, 3, 0, 4, 3, 2, 0, 1, 0x19, 0x00, 0x1A, 0x09];

// The three serials on the list, and one that is not.
const SERIALS: [[u8; 4]; 4] = [
    [0xb8, 0x5c, 0x34, 0x1a],
    [0x87, 0x02, 0x4b, 0xb7],
    [0x3f, 0xa6, 0xd2, 0xdf],
    [0x3f, 0x37, 0xa1, 0xa7],
];

// The same image with a cell of six bits, where a cell has five.
const DAMAGED: [u8; 12] = [1, 3, 0, 4, 3, 2, 0, 1, 0x19, 0x00, 0x3A, 0x09];

fn main(rt: HostRuntime) -> anyhow::Result<()> {
    let heap = rt.alloc();
    println!(rt; "{}", report::opened(heap, &IMAGE)?)?;
    for serial in &SERIALS {
        println!(rt; "{}", report::asked(heap, &IMAGE, &Split, serial)?)?;
    }
    println!(rt; "{}", report::opened(heap, &DAMAGED)?)?;
    Ok(())
}
