//! Tests of the base and of the codec.
#![tactic(auto)]

#[cfg(test)]
mod base;
#[cfg(test)]
mod checks;
#[cfg(test)]
mod endpoints;
#[cfg(test)]
mod engine_writes;
#[cfg(test)]
mod engines;
#[cfg(test)]
mod frames;
#[cfg(test)]
mod handshakes;
#[cfg(test)]
mod messages;
#[cfg(test)]
mod metadata;
#[cfg(test)]
mod octets;
#[cfg(test)]
mod options;
#[cfg(test)]
mod streams;
