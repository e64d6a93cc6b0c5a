//! Tests of `sat_checker` through its public functions, in a crate of their own so that the library is proved
//! only once.
//!
//! Each table of rows is named in a single function, which returns it: a body that names a table is proved over all of
//! its rows, which takes long.
#![tactic(auto)]

#[cfg(test)]
mod announcements;
#[cfg(test)]
mod boxes;
#[cfg(test)]
mod caller;
#[cfg(test)]
mod calls;
#[cfg(test)]
mod devices;
#[cfg(test)]
mod dimacs;
#[cfg(test)]
mod errors;
#[cfg(test)]
mod failures;
#[cfg(test)]
mod hearing;
#[cfg(test)]
mod items;
#[cfg(test)]
mod kinds;
#[cfg(test)]
mod law_callers;
#[cfg(test)]
mod listeners;
#[cfg(test)]
mod looks;
#[cfg(test)]
mod proofs;
#[cfg(test)]
mod rows;
#[cfg(test)]
mod steps;
#[cfg(test)]
mod storing;
