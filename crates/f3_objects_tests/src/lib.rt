//! Random objects, copied, moved and given back in both heaps.
#![tactic(auto)]

#[cfg(test)]
mod descriptors;
#[cfg(test)]
mod dice;
#[cfg(test)]
mod elements;
#[cfg(test)]
mod growth;
#[cfg(test)]
mod holders;
#[cfg(test)]
mod layouts;
#[cfg(test)]
mod object;
#[cfg(test)]
mod rounds;
#[cfg(test)]
mod tests;
#[cfg(test)]
mod towers;
#[cfg(test)]
mod written;
