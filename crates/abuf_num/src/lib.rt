//! Numbers, lists and the plain types that the other crates share.
//!
//! [`scaled`] reads a decimal number and gives the whole number nearest to `k` times its value, by
//! the definition `specs/Decimal.antt`, or says why there is none. [`floor_div`] and
//! [`round_div`] are the two divisions that round (`specs/Division.antt`); [`product`] and
//! [`difference`] always fit. Clauses see a [`List`] as the list of its items. [`limits`] names the limits of scenes, images and runs.
#![tactic(auto)]

mod arithmetic;
mod colour;
mod decimal;
mod division;
mod leading;
pub mod limits;
mod list;
mod plain;
mod reciprocal;
mod sign;
mod size;
mod texts;

pub use arithmetic::{difference, product};
pub use colour::channel;
pub use decimal::{NumFault, scaled};
pub use division::{floor_div, round_div};
pub use leading::{LeadingDigits, LeadingNumber, leading_digits, leading_number};
pub use list::{List, NoMemory};
pub use plain::{Paint, PixelSum, WHITE};
pub use reciprocal::Reciprocal;
pub use sign::begins_negative;
pub use texts::{scaled_number, signed_number, whole_number};
