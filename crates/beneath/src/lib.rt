// What lies beneath a prefix: the routes that are as long or longer and begin with its bits. They stand together in a list in order, so they are lent as a part of the row, with its lifetime and without a copy.
#![tactic(auto)]

mod parts;
mod views;

pub use parts::{Span, part, span_of};
pub use views::{View, beneath, beneath_span};
