//! Tests of `sat_base` through its public functions, in a crate of their own so that the library is proved only once.
//!
//! Each table of rows is named in a single function, which returns it: a body that names a table is proved over all of
//! its rows, which takes long.
#![tactic(auto)]

#[cfg(test)]
mod caller;
#[cfg(test)]
mod devices;
#[cfg(test)]
mod dimacs;
#[cfg(test)]
mod dimacs_writer;
#[cfg(test)]
mod errors;
#[cfg(test)]
mod formula;
#[cfg(test)]
mod lit;
#[cfg(test)]
mod numbers;
#[cfg(test)]
mod steps;
#[cfg(test)]
mod table;
#[cfg(test)]
mod text;
