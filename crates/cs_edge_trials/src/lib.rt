//! Tests of the edge of the process: command lines, readers and writers, numbers and hex in text. Each call
//! that takes memory, once with ample memory, and what no contract says.
#![tactic(auto)]

#[cfg(test)]
mod command;
#[cfg(test)]
mod io;
#[cfg(test)]
mod text;
