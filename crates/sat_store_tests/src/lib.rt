//! Tests of `sat_store` through its public functions.
#![tactic(auto)]

#[cfg(test)]
mod clauses;
#[cfg(test)]
mod example;
#[cfg(test)]
mod headers;
#[cfg(test)]
mod maps;
#[cfg(test)]
mod picks;
#[cfg(test)]
mod scales;
#[cfg(test)]
mod schedule;
