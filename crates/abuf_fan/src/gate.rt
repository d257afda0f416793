// What every worker passes by.
use abuf_frame::Pass;

/// What each worker of a drawing passes twice. A gate promises nothing but that it returns.
pub trait Gate {
    /// Each worker of `draw_all` calls this with its number, from 0 on, and its own pass. The first call comes before its first
    /// triangle. The second comes after its first chunk of 64 triangles, or at its end if it drew none. Between the two calls the
    /// worker neither splits that pass nor joins another into it.
    fn pass_by(&self, worker: u32, pass: &Pass);
}

/// The gate that does nothing.
pub struct OpenGate;

impl Gate for OpenGate {
    fn pass_by(&self, _worker: u32, _pass: &Pass) {}
}
