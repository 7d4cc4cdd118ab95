//! Tests of the objects of `io_edge`, through the traits' bounds alone, and of the records of `record_io`: each public
//! call once, with ample memory. That a call succeeds, and what a real device does, is what no clause can say.
#![tactic(auto)]

#[cfg(test)]
mod callers;
#[cfg(test)]
mod devices;
#[cfg(test)]
mod objects;
#[cfg(test)]
mod records;
