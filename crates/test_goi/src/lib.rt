//! Tests of words, of files and of whole calls.
//!
//! The devices of `goi_world`: what files and sinks in memory give at worked rows, and what no clause can say of the real ones. `goi_words`
//! on no words, and on long ones. The texts of `demo_text`. The public calls of `goi_engine`, over devices that fail and at gates where
//! workers meet, a report of `goi_reports` that no call asks for, and `pcf_types` and `pcf_values` at the highest trees; and a caller that
//! shows what the promise of the top call says to one whose devices are sure. What words ask for, and whole programs, are tried from
//! outside, by `.ci/calls`.
//!
//! Tests stand in crates of their own, so that the crates they are of are not proved a second time with them.
#![tactic(auto)]

#[cfg(test)]
mod devices;
#[cfg(test)]
mod disk;
#[cfg(test)]
mod fed;
#[cfg(test)]
mod generated;
#[cfg(test)]
mod given;
#[cfg(test)]
mod late;
#[cfg(test)]
mod lists;
#[cfg(test)]
mod meeting;
#[cfg(test)]
mod memory;
#[cfg(test)]
mod notes;
#[cfg(test)]
mod reports;
#[cfg(test)]
mod sinks;
#[cfg(test)]
mod sizes;
mod sure;
#[cfg(test)]
mod types;
#[cfg(test)]
mod values;

pub use sure::run_surely;
