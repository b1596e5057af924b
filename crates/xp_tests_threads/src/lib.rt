//! Tests of partitions as threads: gates force an order, and the report is that of the order.
#![tactic(auto)]

#[cfg(test)]
mod gates;
#[cfg(test)]
mod orders;
#[cfg(test)]
mod refusals;
#[cfg(test)]
mod words;
