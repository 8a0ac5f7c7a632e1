//! The Go declarations that assembly is checked against: functions without a body, and the types of their parameters.
#![tactic(auto)]

mod declarations;
mod go_type;
mod measure;

pub use declarations::{Func, Param, Stubs};
pub use go_type::GoType;
pub use measure::{MOST_SIZE, Measure, end_behind, measure_of};
