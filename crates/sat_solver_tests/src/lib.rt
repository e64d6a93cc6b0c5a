//! Tests of `sat_solver` through its public functions, in a crate of their own so that the library is proved only once;
//! and callers that are proved.
#![tactic(auto)]

#[cfg(test)]
mod analysing;
#[cfg(test)]
mod blind;
#[cfg(test)]
mod breaking;
pub mod caller;
#[cfg(test)]
mod calls;
#[cfg(test)]
mod certificates;
#[cfg(test)]
mod devices;
#[cfg(test)]
mod driver;
#[cfg(test)]
mod errors;
#[cfg(test)]
mod extending;
#[cfg(test)]
mod listening;
#[cfg(test)]
mod naming;
#[cfg(test)]
mod proof;
#[cfg(test)]
mod refusing;
#[cfg(test)]
mod scripts;
#[cfg(test)]
mod searcher;
#[cfg(test)]
mod sessions;
#[cfg(test)]
mod short;
#[cfg(test)]
mod states;
#[cfg(test)]
mod texts;
#[cfg(test)]
mod twenty;
pub mod whole;
