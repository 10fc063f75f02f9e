//! Tests of what no script and no list of happenings shows. They are of workers, threads that share a store, and sessions with the
//! bytes that a connection brings; of levels in boxes, numbers and records in bytes, and the queue as plain lists.
#![tactic(auto)]

#[cfg(test)]
mod connection;
#[cfg(test)]
#[tactic(auto, unfolding(rq_level::specs::Meaning::meaning_of))]
mod counted;
#[cfg(test)]
#[tactic(auto, unfolding(rq_level::specs::Meaning::meaning_of))]
mod drops;
#[cfg(test)]
mod fields;
#[cfg(test)]
mod gates;
#[cfg(test)]
#[tactic(auto, unfolding(rq_level::specs::Meaning::meaning_of))]
mod levels;
#[cfg(test)]
mod mark;
#[cfg(test)]
#[tactic(auto, unfolding(rq_level::specs::Meaning::meaning_of))]
mod own_level;
#[cfg(test)]
mod records;
#[cfg(test)]
mod reference;
#[cfg(test)]
mod stores;
#[cfg(test)]
mod stream;
#[cfg(test)]
mod threads;
#[cfg(test)]
mod turns;
