//! Journals over archives of a few packages: what is followed, where and why not, and what clusters break. Tests alone.
#![tactic(auto)]

#[cfg(test)]
mod breaking;
#[cfg(test)]
mod cuts;
#[cfg(test)]
mod faults;
#[cfg(test)]
mod followed;
#[cfg(test)]
mod journals;
#[cfg(test)]
mod planned;
