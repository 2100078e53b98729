//! Worked rows: lexemes, sources as trees and back, units made by hand and run as images, instructions,
//! and the whole program as one call. There is nothing here but tests.
#![tactic(auto)]

#[cfg(test)]
mod budgets;
#[cfg(test)]
mod code;
#[cfg(test)]
mod commands;
#[cfg(test)]
mod example;
#[cfg(test)]
mod images;
#[cfg(test)]
mod lexemes;
#[cfg(test)]
mod outside;
#[cfg(test)]
mod programs;
#[cfg(test)]
mod rows;
#[cfg(test)]
mod scopes;
#[cfg(test)]
mod sources;
#[cfg(test)]
mod units;
#[cfg(test)]
mod words;
