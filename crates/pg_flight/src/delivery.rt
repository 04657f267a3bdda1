// A delivery.

use pg_msg::MessageId;
use pg_page::Place;

/// A message of a queue that was given to a consumer.
#[derive(Clone, Copy, PartialEq, Eq)]
pub struct Delivery {
    /// The id of the queue.
    pub queue: u32,
    pub id: MessageId,
    /// Where the message stands in a page. None where the journal holds it.
    pub place: Option<Place>,
}
