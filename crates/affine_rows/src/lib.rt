//! Tests of the layers, and nothing else: each public call once on its happy path, and values from outside as tables.
#![tactic(auto)]

#[cfg(test)]
mod calls;
#[cfg(test)]
mod copies;
#[cfg(test)]
mod expressions;
#[cfg(test)]
mod gates;
#[cfg(test)]
mod images;
#[cfg(test)]
mod integers;
#[cfg(test)]
mod numbers;
#[cfg(test)]
mod operations;
#[cfg(test)]
mod order_policies;
#[cfg(test)]
mod places;
#[cfg(test)]
mod products;
#[cfg(test)]
mod prompt_runs;
#[cfg(test)]
mod regions;
#[cfg(test)]
mod runs;
#[cfg(test)]
mod samples;
#[cfg(test)]
mod streams;
#[cfg(test)]
mod systems;
#[cfg(test)]
mod texts;
#[cfg(test)]
mod transfers;
#[cfg(test)]
mod validity;
#[cfg(test)]
mod words;
