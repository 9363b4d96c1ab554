//! Tests, of discs, of one port and of two; what the calls promise of discs, and what their callers may do.
#![tactic(auto)]

#[cfg(test)]
mod at_one_port;
#[cfg(test)]
mod at_two_ports;
mod callers;
#[cfg(test)]
mod discs;
mod of_discs;
#[cfg(test)]
mod plain;
