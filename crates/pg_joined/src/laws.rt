// Laws of a broker whose messages stand in two places. They have no code.
ghost use Rattle.std.specs.Prelude.{All, ◌≡◌, ◌≢◌, ◌+◌, ℕ, List, [], Option, None, Some, length};
ghost use Rattle.std.specs.List.{Contains};
ghost use Rattle.pg_msg.specs.declared.message.Message.{Message};
ghost use Rattle.pg_msg.specs.declared.message.MessageId.{MessageId};
ghost use Rattle.pg_msg.specs.declared.properties.Property.{Property};
ghost use Rattle.pg_msg.specs.declared.reply.Refusal.{Refusal};
ghost use Rattle.pg_msg.specs.declared.reply.Reply.{Reply};
ghost use Rattle.pg_msg.specs.declared.reply.Reply.TheVariants as answer;
ghost use Rattle.pg_model.specs.Actions.{Action, MakeAddress, MakeQueue, DropQueue, Send, Open, Receive, Acknowledge, Cancel, Close, Count};
ghost use Rattle.pg_model.specs.Broker.{Broker, Consumer, HoldsMessage, IsValid, Queue, Settings, address_named, consumer_named, queue_named, queue_with};
ghost use Rattle.pg_model.specs.Causes.{IsFirst};
ghost use Rattle.pg_model.specs.Changes.{message_of, next_id, with_id, without_id, without_message};
ghost use Rattle.pg_model.specs.Refusals.{View, causes};
ghost use Rattle.pg_model.specs.Routing.{IsRouted};
ghost use Rattle.pg_model.specs.Steps.{Acts, available};
ghost use Rattle.pg_joined.specs.Joined.{Ascends, AsksNoFlight, GoesPastPages, HasMessage, IsNotInPages, IsSplit, OpensWithNone, PagedFlights, PagedMessages, joined, nothing, paged_available, with_drawn, with_flights_at, with_messages_at, with_paged};

/// Where nothing stands in pages, the whole is the broker alone. This law has no code.
pub fn nothing_in_pages()
    ensures { (s : Broker) (paged : PagedMessages) (flights : PagedFlights) → ((queue : ℕ) → paged queue ≡ [])
        → ((name : List ℕ) → flights name ≡ []) → joined paged flights s ≡ s }
{}

/// What an action is refused for doesn't depend on what stands in pages, unless it asks what is in flight: names,
/// addresses, queues, consumers and routes are the same. This law has no code.
pub fn same_causes()
    ensures of_whole { (view : View) (s : Broker) (paged : PagedMessages) (flights : PagedFlights) (action : Action)
        (refusal : Option Refusal) → AsksNoFlight action → IsFirst (causes view s action) refusal
        → IsFirst (causes view (joined paged flights s) action) refusal }
    ensures of_broker { (view : View) (s : Broker) (paged : PagedMessages) (flights : PagedFlights) (action : Action)
        (refusal : Option Refusal) → AsksNoFlight action → IsFirst (causes view (joined paged flights s) action) refusal
        → IsFirst (causes view s action) refusal }
{}

/// A step of the broker alone is one of the whole, where it doesn't touch what stands in pages, or takes all of a queue or
/// of a consumer out of them. The reply is the same, but that of a count, which has those in pages too. This law has no
/// code.
pub fn lifts()
    ensures refused { (view : View) (s t : Broker) (paged : PagedMessages) (flights : PagedFlights) (action : Action)
        (refusal : Refusal) → AsksNoFlight action → Acts view s action (answer.No refusal) t
        → Acts view (joined paged flights s) action (answer.No refusal) (joined paged flights t) }
    ensures make_address { (view : View) (s t : Broker) (paged : PagedMessages) (flights : PagedFlights) (reply : Reply)
        (name : List ℕ) (settings : Settings) → Acts view s (MakeAddress name settings) reply t
        → Acts view (joined paged flights s) (MakeAddress name settings) reply (joined paged flights t) }
    ensures make_queue { (view : View) (s t : Broker) (paged : PagedMessages) (flights : PagedFlights) (reply : Reply)
        (name address : List ℕ) (filter : Option (List ℕ)) → (reply ≡ answer.Done → paged s.durable.next ≡ [])
        → Acts view s (MakeQueue name address filter) reply t
        → Acts view (joined paged flights s) (MakeQueue name address filter) reply (joined paged flights t) }
    ensures drop_queue { (view : View) (s t : Broker) (paged : PagedMessages) (flights : PagedFlights) (reply : Reply)
        (name : List ℕ) → Acts view s (DropQueue name) reply t
        → Acts view (joined paged flights s) (DropQueue name) reply (joined paged flights t) }
    ensures drop_queue_and_pages { (view : View) (s t : Broker) (paged : PagedMessages) (flights : PagedFlights)
        (name : List ℕ) (q : Queue) → queue_named s.durable.queues name ≡ Some q
        → Acts view s (DropQueue name) answer.Done t
        → Acts view (joined paged flights s) (DropQueue name) answer.Done
        (joined (with_messages_at q.id nothing paged) flights t) }
    ensures send { (view : View) (s t : Broker) (paged : PagedMessages) (flights : PagedFlights) (reply : Reply)
        (address : List ℕ) (properties : List Property) (body : List ℕ) → GoesPastPages paged s address properties
        → Acts view s (Send address properties body) reply t
        → Acts view (joined paged flights s) (Send address properties body) reply (joined paged flights t) }
    ensures unrouted { (view : View) (s t : Broker) (paged : PagedMessages) (flights : PagedFlights) (address : List ℕ)
        (properties : List Property) (body : List ℕ) → Acts view s (Send address properties body) answer.Unrouted t
        → Acts view (joined paged flights s) (Send address properties body) answer.Unrouted (joined paged flights t) }
    ensures open_consumer { (view : View) (s t : Broker) (paged : PagedMessages) (flights : PagedFlights) (reply : Reply)
        (name queue : List ℕ) → (reply ≡ answer.Done → flights name ≡ []) → Acts view s (Open name queue) reply t
        → Acts view (joined paged flights s) (Open name queue) reply (joined paged flights t) }
    ensures receive { (view : View) (s t : Broker) (paged : PagedMessages) (flights : PagedFlights) (reply : Reply)
        (consumer : List ℕ) → IsSplit paged flights s → reply ≢ answer.Empty → Acts view s (Receive consumer) reply t
        → Acts view (joined paged flights s) (Receive consumer) reply (joined paged flights t) }
    ensures acknowledge { (view : View) (s t : Broker) (paged : PagedMessages) (flights : PagedFlights) (reply : Reply)
        (consumer : List ℕ) (id : MessageId) → IsSplit paged flights s → IsNotInPages flights s consumer id
        → Acts view s (Acknowledge consumer id) reply t
        → Acts view (joined paged flights s) (Acknowledge consumer id) reply (joined paged flights t) }
    ensures cancel { (view : View) (s t : Broker) (paged : PagedMessages) (flights : PagedFlights) (reply : Reply)
        (consumer : List ℕ) (id : MessageId) → IsSplit paged flights s → IsNotInPages flights s consumer id
        → Acts view s (Cancel consumer id) reply t
        → Acts view (joined paged flights s) (Cancel consumer id) reply (joined paged flights t) }
    ensures close { (view : View) (s t : Broker) (paged : PagedMessages) (flights : PagedFlights) (reply : Reply)
        (consumer : List ℕ) → Acts view s (Close consumer) reply t
        → Acts view (joined paged flights s) (Close consumer) reply
        (joined paged (with_flights_at consumer nothing flights) t) }
    ensures count { (view : View) (s t : Broker) (paged : PagedMessages) (flights : PagedFlights) (name : List ℕ)
        (q : Queue) (n : ℕ) → queue_named s.durable.queues name ≡ Some q → Acts view s (Count name) (answer.Count n) t
        → Acts view (joined paged flights s) (Count name) (answer.Count (n + length (paged q.id)))
        (joined paged flights t) }
{}

/// Steps of the whole that change what stands in pages, and what the broker alone has stays: a consumer gets a message in
/// pages where none of the broker's is left for it, it acknowledges or cancels one of those, and a message is sent to
/// queues behind what they have in pages. This law has no code.
pub fn steps_in_pages()
    ensures receive { (view : View) (s : Broker) (paged : PagedMessages) (flights : PagedFlights) (name : List ℕ)
        (c : Consumer) (q : Queue) (m : Message) → IsSplit paged flights s
        → consumer_named s.running.consumers name ≡ Some c → queue_with s.durable.queues c.queue ≡ Some q
        → available s q ≡ None → paged_available paged flights s q ≡ Some m
        → Acts view (joined paged flights s) (Receive name) (answer.Given m)
        (joined paged (with_flights_at name (with_id m.id) flights) s) }
    ensures nothing_left { (view : View) (s : Broker) (paged : PagedMessages) (flights : PagedFlights) (name : List ℕ)
        (c : Consumer) (q : Queue) → IsSplit paged flights s → consumer_named s.running.consumers name ≡ Some c
        → queue_with s.durable.queues c.queue ≡ Some q → available s q ≡ None → paged_available paged flights s q ≡ None
        → Acts view (joined paged flights s) (Receive name) answer.Empty (joined paged flights s) }
    ensures acknowledge { (view : View) (s : Broker) (paged : PagedMessages) (flights : PagedFlights) (name : List ℕ)
        (id : MessageId) (c : Consumer) → IsSplit paged flights s → consumer_named s.running.consumers name ≡ Some c
        → Contains (flights name) id → Acts view (joined paged flights s) (Acknowledge name id) answer.Done
        (joined (with_messages_at c.queue (without_message id) paged) (with_flights_at name (without_id id) flights) s) }
    ensures cancel { (view : View) (s : Broker) (paged : PagedMessages) (flights : PagedFlights) (name : List ℕ)
        (id : MessageId) (c : Consumer) → IsSplit paged flights s → consumer_named s.running.consumers name ≡ Some c
        → Contains (flights name) id → Acts view (joined paged flights s) (Cancel name id) answer.Done
        (joined paged (with_flights_at name (without_id id) flights) s) }
    ensures send { (view : View) (s : Broker) (paged : PagedMessages) (flights : PagedFlights) (address : List ℕ)
        (properties : List Property) (body : List ℕ) (id : ℕ) (numbers : List ℕ)
        → IsFirst (causes view (joined paged flights s) (Send address properties body)) None
        → address_named s.durable.addresses address ≡ Some id → IsRouted s id properties numbers → numbers ≢ []
        → Acts view (joined paged flights s) (Send address properties body) (answer.Sent (next_id s))
        (joined (with_paged numbers (message_of (next_id s) properties body) paged) flights (with_drawn s)) }
{}

/// Where the whole is valid, the parts fit together if what is in flight is on the side where its message is. They fit
/// together behind each step of the laws above, where the whole is valid behind it. This law has no code.
pub fn split_kept()
    ensures where_valid { (s : Broker) (paged : PagedMessages) (flights : PagedFlights) → IsValid (joined paged flights s)
        → All (λ c. Ascends c.in_flight) s.running.consumers
        → All (λ c. All (λ id. HasMessage (paged c.queue) id → ⊥) c.in_flight) s.running.consumers
        → All (λ c. All (λ id. HoldsMessage s.durable.queues c.queue id → ⊥) (flights c.name)) s.running.consumers
        → IsSplit paged flights s }
    ensures acts { (view : View) (s t : Broker) (paged : PagedMessages) (flights : PagedFlights) (action : Action)
        (reply : Reply) → IsSplit paged flights s → IsValid (joined paged flights t) → OpensWithNone flights action reply
        → Acts view s action reply t → IsSplit paged flights t }
    ensures drop_queue_and_pages { (view : View) (s t : Broker) (paged : PagedMessages) (flights : PagedFlights)
        (name : List ℕ) (q : Queue) → IsSplit paged flights s
        → IsValid (joined (with_messages_at q.id nothing paged) flights t) → queue_named s.durable.queues name ≡ Some q
        → Acts view s (DropQueue name) answer.Done t → IsSplit (with_messages_at q.id nothing paged) flights t }
    ensures close { (view : View) (s t : Broker) (paged : PagedMessages) (flights : PagedFlights) (reply : Reply)
        (consumer : List ℕ) → IsSplit paged flights s
        → IsValid (joined paged (with_flights_at consumer nothing flights) t) → Acts view s (Close consumer) reply t
        → IsSplit paged (with_flights_at consumer nothing flights) t }
    ensures receive_in_pages { (s : Broker) (paged : PagedMessages) (flights : PagedFlights) (name : List ℕ)
        (c : Consumer) (q : Queue) (m : Message) → IsSplit paged flights s
        → IsValid (joined paged (with_flights_at name (with_id m.id) flights) s)
        → consumer_named s.running.consumers name ≡ Some c → queue_with s.durable.queues c.queue ≡ Some q
        → paged_available paged flights s q ≡ Some m → IsSplit paged (with_flights_at name (with_id m.id) flights) s }
    ensures acknowledge_in_pages { (s : Broker) (paged : PagedMessages) (flights : PagedFlights) (name : List ℕ)
        (id : MessageId) (queue : ℕ) → IsSplit paged flights s
        → IsValid (joined (with_messages_at queue (without_message id) paged) (with_flights_at name (without_id id) flights) s)
        → IsSplit (with_messages_at queue (without_message id) paged) (with_flights_at name (without_id id) flights) s }
    ensures cancel_in_pages { (s : Broker) (paged : PagedMessages) (flights : PagedFlights) (name : List ℕ)
        (id : MessageId) → IsSplit paged flights s
        → IsValid (joined paged (with_flights_at name (without_id id) flights) s)
        → IsSplit paged (with_flights_at name (without_id id) flights) s }
    ensures send_in_pages { (s : Broker) (paged : PagedMessages) (flights : PagedFlights) (numbers : List ℕ) (m : Message)
        → IsSplit paged flights s → IsValid (joined (with_paged numbers m paged) flights (with_drawn s))
        → IsSplit (with_paged numbers m paged) flights (with_drawn s) }
{}
