// Standard input and output in large pieces, for the programs: octets that were read and are not yet used, and octets that wait to be written.
#![tactic(auto)]

mod input;
mod output;
mod place;

pub use input::{Window, hold, hold_piece};
pub use place::{Place, begin, feed, finish, flush, go_on, say_broken, spare};
