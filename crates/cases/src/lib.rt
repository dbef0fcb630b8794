// Examples that are run: published vectors, the limits of each number from both sides, damaged images, and drafts.
// Expected values come from publications or from an independent calculation.
#![tactic(auto)]

mod elimination;
#[cfg(test)]
mod given;
mod images;
mod limits;
mod lists;
mod readers_told;
mod vectors;
