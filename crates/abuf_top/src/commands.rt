// The commands: what each draws, and the bytes that it writes.
pub(crate) mod demo;
pub(crate) mod pick;
pub(crate) mod render;
pub(crate) mod sequence;
