//! Internal crate of the facade `device_model`: the rows of a trace, read from the bytes of a text.
//!
//! `specs/Trace.antt` defines which rows a text has, or which is its first error, and the contract of [`read_trace`] says that
//! it returns these. docs/FORMATS.md describes the format. [`Block`], [`number`], [`next_record`] and [`number_below_21`] also
//! read the arrivals of the machine: the first two plain rows, the others all rows.
#![tactic(auto)]

mod block;
mod event;
mod fault;
mod fused;
mod laws;
mod plain;
mod record;
mod row;
mod source;
mod switch;
mod trace;

pub use block::{Block, RecordsLeft};
pub use event::RowEvent;
pub use fault::TraceFault;
pub use fused::Fused;
pub use laws::{first_fault_stands, first_records_decide};
pub use plain::number;
pub use record::number_below_21;
pub use row::Row;
pub use source::{NextRecord, ReadError, next_record, reader_of};
pub use switch::Switch;
pub use trace::{MOST_ROWS, Trace, read_trace};
