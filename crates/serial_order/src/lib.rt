//! The one order of rows and requests of a run in ordered mode.
//!
//! Every row of such a run comes after the first k accepted requests and before all later ones.
//! This crate tells k for each row, the functions after k requests, and how many rows have each k.
//!
//! ```
//! let serial = serial(alloc, &record, &rows)?;
//! let table = table_at(alloc, &record.setup, 2)?;
//! let rows_with_two = rows_after(serial.as_slice(), 2);
//! ```
#![tactic(auto)]

mod line;
mod places;
mod serial_rows;
mod table;

pub use line::{push_serial_line, rows_after};
pub use serial_rows::{Serial, serial};
pub use table::{FuncTable, table_at};
