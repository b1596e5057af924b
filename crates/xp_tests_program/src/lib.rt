//! Tests of the program's layers: scenarios and their texts, partitions and their world, the
//! report and the top call.
#![tactic(auto)]

#[cfg(test)]
mod causes;
#[cfg(test)]
mod kinds;
#[cfg(test)]
mod lawful;
#[cfg(test)]
mod node;
#[cfg(test)]
mod parts;
#[cfg(test)]
mod report;
#[cfg(test)]
mod scenario;
#[cfg(test)]
mod tables;
#[cfg(test)]
mod tool;
#[cfg(test)]
mod world;
