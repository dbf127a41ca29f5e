//! Scripts of calls on books, against answers worked out by hand.
#![tactic(auto)]

#[cfg(test)]
mod keys;
#[cfg(test)]
mod large_rooms;
#[cfg(test)]
mod samples;
#[cfg(test)]
mod script;
#[cfg(test)]
mod small_rooms;
