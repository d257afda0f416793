//! Tests of whole commands, run over memory. It has no other contents.
#![tactic(auto)]

#[cfg(test)]
mod camera;
#[cfg(test)]
mod colours;
#[cfg(test)]
mod command;
#[cfg(test)]
mod counts;
#[cfg(test)]
mod coverage;
#[cfg(test)]
mod demonstration;
#[cfg(test)]
mod exported;
#[cfg(test)]
mod limits;
#[cfg(test)]
mod materials;
#[cfg(test)]
mod meeting;
#[cfg(test)]
mod obj;
#[cfg(test)]
mod outside;
#[cfg(test)]
mod picked;
#[cfg(test)]
mod scenes;
#[cfg(test)]
mod sequences;
#[cfg(test)]
mod started;
#[cfg(test)]
mod stored;
#[cfg(test)]
mod table;
#[cfg(test)]
mod words;
