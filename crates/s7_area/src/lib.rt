//! Areas: the memory of a controller. They are a map from names to octets, which items read and write, and a guard
//! that refuses reads and writes without a right.
#![tactic(auto)]

mod area;
mod areas;
mod db_numbers;
mod guard;
mod key;
mod laws;
mod place;
mod register;

pub use areas::{Areas, ItemAnswer};
pub use db_numbers::DbNumbers;
pub use guard::Guard;
pub use key::AreaKey;
pub use laws::{areas_join, bits_stand_alone, writes_keep_the_shape, written_is_read};
pub use place::{is_inside, is_misfit, key_of};
pub use register::{RegisterFault, Unknown};
