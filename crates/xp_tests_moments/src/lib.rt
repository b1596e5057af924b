//! Tests of partners that go and come again, of heartbeats, and of channels that open and close:
//! replays of many scenarios that differ in a few places.
#![tactic(auto)]

#[cfg(test)]
mod beats;
#[cfg(test)]
mod channels;
#[cfg(test)]
mod copies;
#[cfg(test)]
mod hostile;
#[cfg(test)]
mod life;
#[cfg(test)]
mod made;
#[cfg(test)]
mod messages;
#[cfg(test)]
mod moments;
#[cfg(test)]
mod partners;
#[cfg(test)]
mod replays;
#[cfg(test)]
mod reports;
#[cfg(test)]
mod words;
