//! Internal crate of the facade `replay`: a trace with the runs that the kernel would add, as rows and as text.
//!
//! [`raise_trace`] turns the bytes of a trace into those of another, and [`raise_rows`] its rows.
#![tactic(auto)]

mod raise;
mod raised;
mod rows_text;

pub use raise::raise_trace;
pub use raised::{raise_rows, raised_is_trace};
