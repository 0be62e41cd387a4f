//! Tests over the public calls of the crates below.
#![tactic(auto)]

#[cfg(test)]
mod command_line;
#[cfg(test)]
mod files;
#[cfg(test)]
mod listeners;
#[cfg(test)]
mod outside;
#[cfg(test)]
mod questions;
#[cfg(test)]
mod rows;
#[cfg(test)]
mod runs;
#[cfg(test)]
mod terms;
#[cfg(test)]
mod texts;
#[cfg(test)]
mod tries;
