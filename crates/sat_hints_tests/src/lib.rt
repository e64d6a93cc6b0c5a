//! Tests of `sat_hints` through its public functions, in a crate of their own so that the library is proved only once.
#![tactic(auto)]

#[cfg(test)]
mod caller;
#[cfg(test)]
mod checks;
#[cfg(test)]
mod converts;
#[cfg(test)]
mod devices;
#[cfg(test)]
mod errors;
