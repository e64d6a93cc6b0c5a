//! Tests of `sat_parts` through its public functions.
#![tactic(auto)]

#[cfg(test)]
mod alone;
#[cfg(test)]
mod causes;
#[cfg(test)]
mod collection;
#[cfg(test)]
mod data;
#[cfg(test)]
mod glue;
#[cfg(test)]
mod lists;
#[cfg(test)]
mod loading;
#[cfg(test)]
mod passes;
#[cfg(test)]
mod propagation;
#[cfg(test)]
mod table;
#[cfg(test)]
mod watching;
