//! A shelf that tells why a text could not be fetched.

use rail_text::Shelf;

/// A shelf that tells why a text could not be fetched.
pub trait ReasonedShelf: Shelf {
    /// Why the last fetch that failed did so, in the words of the system, as far as it tells them.
    fn reason(&self) -> &str;
}
