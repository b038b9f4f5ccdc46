//! Tests of public calls on chains of long values, on trees and on lines, and of the adapters over real files.
#![tactic(auto)]

#[cfg(test)]
mod adapter_tests;
#[cfg(test)]
mod offpage_chain_tests;
#[cfg(test)]
mod sql_dump_tests;
#[cfg(test)]
mod tree_walk_tests;
