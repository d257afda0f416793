//! Tests of the calls that draw: coverage and depth, the frame and its lists, drawing on threads, and the colours. They stand
//! apart from the crates that they call, each of which would be proved once more with tests of its own. This crate has no other
//! contents.
#![tactic(auto)]

#[cfg(test)]
mod band;
#[cfg(test)]
mod depths;
#[cfg(test)]
mod draw;
#[cfg(test)]
mod fan;
#[cfg(test)]
mod frame;
#[cfg(test)]
mod peel;
#[cfg(test)]
mod picture;
#[cfg(test)]
mod raster;
#[cfg(test)]
mod resolve;
#[cfg(test)]
mod resolving;
#[cfg(test)]
mod sequence;
#[cfg(test)]
mod share;
#[cfg(test)]
mod walks;
