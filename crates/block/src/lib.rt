// The state as one block of 2,176 bytes: whether a block is sound, the state that a sound block holds, and the block of a
// state. Where each field lies is written as numbers: shares from 3, meters from 22, Cx from 121, Cs from 380, the count at 639,
// entries from 640.
#![tactic(auto)]

mod bytes;
pub mod check;
pub mod read;
mod row;
pub mod write;
