//! Tests of the language: each kind of line wrong in each way, pairs of faults, the first of two
//! causes, changed texts, texts that are printed, the worked scenarios through the top
//! call, the line of a summary.
#![tactic(auto)]

#[cfg(test)]
mod lines;
#[cfg(test)]
mod listings;
#[cfg(test)]
mod meetings;
#[cfg(test)]
mod mutated;
#[cfg(test)]
mod order;
#[cfg(test)]
mod pairs;
#[cfg(test)]
mod places;
#[cfg(test)]
mod printed;
#[cfg(test)]
mod queues;
#[cfg(test)]
mod replayed;
#[cfg(test)]
mod worked;
