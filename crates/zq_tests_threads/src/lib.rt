//! Tests of what lies in several threads.
#![tactic(auto)]

#[cfg(test)]
mod both_halves;
#[cfg(test)]
mod many;
#[cfg(test)]
mod numbered;
#[cfg(test)]
mod one_thread;
#[cfg(test)]
mod parts;
#[cfg(test)]
mod two_threads;
#[cfg(test)]
mod waiting;
