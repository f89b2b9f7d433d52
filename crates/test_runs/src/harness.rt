//! The harness of the tests: it makes runs with inputs and outputs in memory, and compares their results with the
//! expected ones.

mod cases;
mod left;
mod row_door;
mod rows;
mod runs;

pub use cases::Case;
pub use left::Left;
pub use row_door::RowDoor;
pub use rows::{Named, Row, first_other};
pub use runs::{Run, run_on};
