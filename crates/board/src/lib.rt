// The unit that a load is run on: its memory map, its CPUID table and its mode.
#![tactic(auto)]

pub mod cpuid;
pub mod map;
pub mod reach;
