// Where a cursor stands.

use pg_page::Place;

/// Where a cursor stands among the frames of an address's pages: it has passed those before, and no others.
#[derive(Clone, Copy, PartialEq, Eq)]
pub enum Tail {
    /// At the beginning of the page with that number.
    Begin(u64),
    /// On the page of that place, right behind its frame.
    Behind(Place),
}
