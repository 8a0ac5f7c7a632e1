//! The instructions of functions at their addresses: what they refer to is resolved, and what goes where nothing is told.
#![tactic(auto)]

mod aimed;
mod astray;
mod bytes;
mod depths;
mod place_no;
mod placing;
mod positions;
mod site;

pub use astray::find_astray;
pub use bytes::push_code;
pub use place_no::PlaceNo;
pub use placing::{Code, place};
pub use positions::{line_of, pos_at};
pub use site::Site;
