//! The packet polling core for C: exported functions that check the preconditions of the calls that they make. Comments name
//! the statuses of `enum fq_status` without their prefix `FQ_`.
#![tactic(auto)]

mod attempts;
mod caller_calls;
mod control_calls;
mod counts;
mod driver;
mod ends;
mod free;
mod limit;
mod list;
mod names;
mod places;
mod ring;
mod rules;
mod serial;
mod serial_calls;
mod serial_control;
mod serial_end;
mod shared;
mod sizes;
mod transmit;
mod watch;
