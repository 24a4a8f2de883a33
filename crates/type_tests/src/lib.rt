//! Tests of what a line of a program of cases can't say: that threads may share a type, that copies and shared forms
//! are equal to their originals, that laws return, what two threads see of one order, and what the outside gives and takes.
#![tactic(auto)]

#[cfg(test)]
mod equal;
#[cfg(test)]
mod laws;
#[cfg(test)]
mod lists;
#[cfg(test)]
mod order_log;
#[cfg(test)]
mod outside;
#[cfg(test)]
mod shared;
#[cfg(test)]
mod terms;
#[cfg(test)]
mod threads;
