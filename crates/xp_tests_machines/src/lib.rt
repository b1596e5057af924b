//! Tests of the machines over the whole protocol: the two sides of a channel, the rounds of a
//! partition, and its planner.
#![tactic(auto)]

#[cfg(test)]
mod planner;
#[cfg(test)]
mod pull_side;
#[cfg(test)]
mod queues;
#[cfg(test)]
mod rounds;
#[cfg(test)]
mod send_side;
