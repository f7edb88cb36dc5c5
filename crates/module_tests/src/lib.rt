//! Tests of modules, plans, schedules, arithmetic and lines: of the crates that read them and say why not.
//!
//! A crate with tests is proved twice, so they stand here, over what those crates offer; so do the other `*_tests`.
#![tactic(auto)]

#[cfg(test)]
mod arithmetic;
#[cfg(test)]
mod basics;
#[cfg(test)]
mod block_targets;
#[cfg(test)]
mod cursors;
#[cfg(test)]
mod decoding;
#[cfg(test)]
mod fault_kinds;
#[cfg(test)]
mod group_rows;
#[cfg(test)]
mod instruction_names;
#[cfg(test)]
mod modules;
#[cfg(test)]
mod name_sections;
#[cfg(test)]
mod piece_lines;
#[cfg(test)]
mod plan_lines;
#[cfg(test)]
mod plans;
#[cfg(test)]
mod refused_memory;
#[cfg(test)]
mod schedule_lines;
#[cfg(test)]
mod schedules;
#[cfg(test)]
mod validation;
#[cfg(test)]
mod validation_rows;
