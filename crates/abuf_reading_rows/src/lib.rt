//! Tests of the calls that read and write: numbers, texts, scenes, libraries, the command line, images, and what lies outside.
//! They stand apart from the crates that they call, each of which would be proved once more with tests of its own. This crate has
//! no other contents.
#![tactic(auto)]

#[cfg(test)]
mod cli;
#[cfg(test)]
mod flat_scene;
#[cfg(test)]
mod io;
#[cfg(test)]
mod mtl;
#[cfg(test)]
mod num;
#[cfg(test)]
mod obj;
#[cfg(test)]
mod obj_threads;
#[cfg(test)]
mod pam;
#[cfg(test)]
mod refusals;
#[cfg(test)]
mod scene;
#[cfg(test)]
mod text;
#[cfg(test)]
mod view;
