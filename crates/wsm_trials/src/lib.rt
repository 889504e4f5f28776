//! Trials of what comes from outside beside programs, of which nothing takes a run out of its promises: rows and texts of any
//! bytes, readers and devices that fail, and numbers on both sides of each limit. There are tests alone.
//!
//! - `running`: runs of queries, and what they come to
//! - `rows`: rows that are no event, or one that is refused
//! - `texts`: queries of which a byte was changed
//! - `devices`: readers and devices that fail
//! - `edges`: numbers of a query on both sides of each limit
//! - `row_edges`: rows on both sides of each limit
#![tactic(auto)]

#[cfg(test)]
mod devices;
#[cfg(test)]
mod edges;
#[cfg(test)]
mod row_edges;
#[cfg(test)]
mod rows;
#[cfg(test)]
mod running;
#[cfg(test)]
mod texts;
