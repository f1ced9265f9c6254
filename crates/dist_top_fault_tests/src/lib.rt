//! The top call on memory desks, where each call of the desk, or each write to a sink, fails in turn. Tests alone.
#![tactic(auto)]

#[cfg(test)]
mod each_call;
#[cfg(test)]
mod walks;
