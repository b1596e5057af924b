//! Tests of what stands on bytes and words alone: the layout, the bodies of messages, flags, the
//! images of structures, dumps and listings, network messages, and the edge to the operating
//! system.
#![tactic(auto)]

#[cfg(test)]
mod base;
#[cfg(test)]
mod dumps;
#[cfg(test)]
mod flags;
#[cfg(test)]
mod hostile;
#[cfg(test)]
mod messages;
#[cfg(test)]
mod mutations;
#[cfg(test)]
mod page;
#[cfg(test)]
mod sink;
#[cfg(test)]
mod source;
#[cfg(test)]
mod standard;
