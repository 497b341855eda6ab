// The block chain: signed header, blocks each proved by the one before, the opener, the packer and the signature field.
#![tactic(auto)]

pub mod blocks;
pub mod hashsum;
pub mod header;
pub mod open;
pub mod pack;
