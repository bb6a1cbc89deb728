// A sheet of build tasks over any need store, and its life.
#![tactic(auto)]

mod request;
mod sheets;
mod task;
mod tasks;

pub use request::Request;
pub use sheets::Sheet;
