//! The listing of units: the text that shows which instructions each function of a source becomes, and where they stand. With it what
//! the text shows: the instructions of a function with their places and forms, and from where and to what each of them refers.
#![tactic(auto)]

mod laid;
mod laws;
mod lines;
mod listing_no;
mod shown;
mod units;

pub use laid::{Laid, lay};
pub use laws::one_listing;
pub use lines::{form_at, line_at, place_at, refer_in};
pub use listing_no::ListingNo;
pub use shown::{place_to, seen_from};
pub use units::listing;
