//! Tests of `certify` through its public functions, in a crate of their own so that the library is proved only once.
//!
//! Each table of rows is named in a single function, which returns it: a body that names a table is proved over all of
//! its rows, which takes long.
#![tactic(auto)]

#[cfg(test)]
mod answers;
#[cfg(test)]
mod caller;
#[cfg(test)]
mod confirm;
#[cfg(test)]
mod damage;
#[cfg(test)]
mod devices;
#[cfg(test)]
mod endless;
#[cfg(test)]
mod examples;
#[cfg(test)]
mod files;
#[cfg(test)]
mod hints;
#[cfg(test)]
mod mismatches;
#[cfg(test)]
mod names;
#[cfg(test)]
mod pieces;
#[cfg(test)]
mod program;
#[cfg(test)]
mod reading;
#[cfg(test)]
mod run;
#[cfg(test)]
mod session;
#[cfg(test)]
mod words;
#[cfg(test)]
mod written;
