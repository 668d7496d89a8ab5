//! Documents of XML and HTML, of which each element that was begun is ended in its order, and all text and all values
//! of attributes are escaped.
//!
//! A `Page` is written from its root on. Its type keeps that what is written is the beginning of a well-formed
//! document, and `finish` makes it one.
#![tactic(auto)]

mod attributes;
mod escapes;
mod page;
mod tags;

pub use attributes::{Attribute, Name, Value};
pub use page::Page;
pub use tags::{EmptyTag, Tag};
