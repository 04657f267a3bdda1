// Laws of the lists of routes, and of the broker.
ghost use Rattle.std.specs.Prelude.{◌≡◌, ◌⊎◌, ◌<◌, ◌++◌, ◌∷◌, [], All, List, ℕ, None, Some, Option};
ghost use Rattle.std.specs.List.{Contains};
ghost use Rattle.pg_routes.specs.Names.{AddressName, QueueName, RouteNames, address_named, queue_named, with_address, with_queue};
ghost use Rattle.pg_msg.specs.declared.command.Command.{Command};
ghost use Rattle.pg_msg.specs.declared.command.Command.TheVariants as command;
ghost use Rattle.pg_msg.specs.declared.message.Message.{Message};
ghost use Rattle.pg_msg.specs.declared.message.MessageId.{MessageId};
ghost use Rattle.pg_msg.specs.declared.properties.Property.{Property};
ghost use Rattle.pg_msg.specs.declared.reply.Refusal.{Refusal};
ghost use Rattle.pg_msg.specs.declared.reply.Reply.{Reply};
ghost use Rattle.pg_msg.specs.declared.reply.Reply.TheVariants as answer;
ghost use Rattle.pg_model.specs.Actions.{Action};
ghost use Rattle.pg_model.specs.Broker.{Broker, Durable, Queue, HoldsMessage, IsDrawn, IsLive, IsValid, fresh, opened_from};
ghost use Rattle.pg_model.specs.Refusals.{View};
ghost use Rattle.pg_model.specs.Steps.{Acts, Run, Step, Takes, asked};
ghost use Rattle.pg_routes.specs.Laws.{GoesOn, IsDecided, IsDecidedLine, IsIn, IsLater, IsOut, MayOpen, TakesOut, any_view};

/// Ids that are drawn in ascending order are appended: what has a greater id than all others goes behind them. This
/// law has no code.
pub fn the_greatest_goes_last()
    ensures address { (routes : RouteNames) (address : AddressName)
        → All (λ other. other.id < address.id) routes.addresses
        → with_address address routes ≡ record routes { addresses = routes.addresses ++ address ∷ [] } }
    ensures queue { (routes : RouteNames) (queue : QueueName) → All (λ other. other.id < queue.id) routes.queues
        → with_queue queue routes ≡ record routes { queues = routes.queues ++ queue ∷ [] } }
{}

/// What is added under a name that nobody has is found by that name, so a name that is taken again leads to the new
/// id. This law has no code.
pub fn found_by_name()
    ensures address { (routes : RouteNames) (address : AddressName) → address_named address.name routes ≡ None
        → address_named address.name (with_address address routes) ≡ Some address.id }
    ensures queue { (routes : RouteNames) (queue : QueueName) → queue_named queue.name routes ≡ None
        → queue_named queue.name (with_queue queue routes) ≡ Some queue.id }
{}

/// The broker stays valid: by each action, built or not, by each line, by a run of any length, and by lines and openings
/// in any order. This law has no code.
pub fn valid_kept()
    ensures acts { (view : View) (s t : Broker) (action : Action) (reply : Reply) → IsValid s
        → Acts view s action reply t → IsValid t }
    ensures step { (view : View) (s t : Broker) (item : Option Command) (reply : Reply) → IsValid s
        → Step view s item reply t → IsValid t }
    ensures run { (s : Broker) (items : List (Option Command)) (replies : List Reply) (states : List Broker) → IsValid s
        → Run any_view s items replies states → All IsValid states }
    ensures later { (s t : Broker) → IsValid s → IsLater s t → IsValid t }
{}

/// What is opened from a durable part that may be opened is valid, and the durable part of a valid state may be opened,
/// whatever the limit of ids is. So what is opened where nothing was made is valid. This law has no code.
pub fn opened_valid()
    ensures valid { (d : Durable) (ids : ℕ) → MayOpen d → IsValid (opened_from ids d) }
    ensures durable { (s : Broker) → IsValid s → MayOpen s.durable }
    ensures fresh { (ids : ℕ) → IsValid (opened_from ids fresh) }
{}

/// A message stays in a queue's list as it is, unless the queue is dropped or the message is acknowledged for a consumer
/// of the queue. This law has no code.
pub fn leaves()
    ensures acts { (view : View) (s t : Broker) (action : Action) (reply : Reply) (queue : ℕ) (m : Message)
        → Acts view s action reply t → IsIn s.durable.queues queue m
        → IsIn t.durable.queues queue m ⊎ TakesOut s action queue m.id }
    ensures step { (view : View) (s t : Broker) (item : Option Command) (reply : Reply) (queue : ℕ) (m : Message)
        → Step view s item reply t → IsIn s.durable.queues queue m
        → IsIn t.durable.queues queue m
        ⊎ ((action : Action) × (asked item ≡ Some action) × TakesOut s action queue m.id) }
    ensures opened { (d : Durable) (ids queue : ℕ) (m : Message) → IsIn d.queues queue m
        → IsIn (opened_from ids d).durable.queues queue m }
{}

/// A message that isn't in a queue's list though its id was drawn is in the list of that queue in no later state, however
/// often the broker is opened anew: one that left the list, and one that never was in it. And the id of a queue that was
/// dropped is that of no queue again. This law has no code.
pub fn left()
    ensures run { (s : Broker) (items : List (Option Command)) (replies : List Reply) (states : List Broker) (queue : ℕ)
        (id : MessageId) → IsDrawn s.durable.epoch s.running.drawn id → IsOut s.durable.queues queue id
        → Run any_view s items replies states → All (λ t. IsOut t.durable.queues queue id) states }
    ensures later { (s t : Broker) (queue : ℕ) (id : MessageId) → IsDrawn s.durable.epoch s.running.drawn id
        → IsOut s.durable.queues queue id → IsLater s t → IsOut t.durable.queues queue id }
    ensures taken_out { (s t u : Broker) (queue : ℕ) (id : MessageId) → IsValid s
        → HoldsMessage s.durable.queues queue id → IsLater s t → IsOut t.durable.queues queue id → IsLater t u
        → IsOut u.durable.queues queue id }
    ensures dropped { (s t u : Broker) (queue : ℕ) → IsValid s → IsLive s.durable.queues queue → IsLater s t
        → (IsLive t.durable.queues queue → ⊥) → IsLater t u → IsLive u.durable.queues queue → ⊥ }
{}

/// The messages of a queue keep their order, and what comes stands behind them: what a queue of a valid state has after
/// an action, or a line, is some of what it had, in its order, and then what came. This law has no code.
pub fn in_order()
    ensures acts { (view : View) (s t : Broker) (action : Action) (reply : Reply) (q r : Queue) → IsValid s
        → Acts view s action reply t → Contains s.durable.queues q → Contains t.durable.queues r → r.id ≡ q.id
        → GoesOn q.messages r.messages }
    ensures step { (view : View) (s t : Broker) (item : Option Command) (reply : Reply) (q r : Queue) → IsValid s
        → Step view s item reply t → Contains s.durable.queues q → Contains t.durable.queues r → r.id ≡ q.id
        → GoesOn q.messages r.messages }
{}

/// What a line does is determined: from one state, and under one view, it has one reply and leads to one state. This law
/// has no code.
pub fn determined()
    ensures acts { (view : View) (s t u : Broker) (action : Action) (reply other : Reply) → Acts view s action reply t
        → Acts view s action other u → (reply ≡ other) × (t ≡ u) }
    ensures step { (view : View) (s t u : Broker) (item : Option Command) (reply other : Reply)
        → Step view s item reply t → Step view s item other u → (reply ≡ other) × (t ≡ u) }
{}

/// From a valid state each action and each line has a step, under whatever view: a reply and a state that it leads to. Of
/// a filter the law asks to be told whether it has a reading, as `parse` tells of each text. This law has no code.
pub fn each_leads_on()
    ensures acts { (view : View) (s : Broker) (action : Action) → IsValid s → IsDecided action
        → (reply : Reply) × (t : Broker) × Acts view s action reply t }
    ensures step { (view : View) (s : Broker) (item : Option Command) → IsValid s → IsDecidedLine item
        → (reply : Reply) × (t : Broker) × Step view s item reply t }
{}

/// A line that is refused leaves all as it was, and so does a message that goes nowhere, a queue that has nothing to give,
/// and a count. This law has no code.
pub fn refused()
    ensures no { (view : View) (s t : Broker) (item : Option Command) (refusal : Refusal)
        → Step view s item (answer.No refusal) t → t ≡ s }
    ensures unrouted { (view : View) (s t : Broker) (item : Option Command)
        → Step view s item answer.Unrouted t → t ≡ s }
    ensures empty { (view : View) (s t : Broker) (item : Option Command)
        → Step view s item answer.Empty t → t ≡ s }
    ensures count { (view : View) (s t : Broker) (item : Option Command) (n : ℕ)
        → Step view s item (answer.Count n) t → t ≡ s }
    ensures acts { (view : View) (s t : Broker) (action : Action) (refusal : Refusal)
        → Acts view s action (answer.No refusal) t → t ≡ s }
{}

/// What begins, is sent in, or rolls back a transaction changes nothing that outlives a run. No transaction is built, so
/// today each such line is answered as an unreadable one is. This law has no code.
pub fn undecided()
    ensures begin { (view : View) (s t : Broker) (tx : List ℕ) (reply : Reply)
        → Step view s (Some (command.Begin tx)) reply t → t.durable ≡ s.durable }
    ensures send { (view : View) (s t : Broker) (address tx : List ℕ) (dup : Option (List ℕ)) (properties : List Property)
        (body : List ℕ) (reply : Reply) → Step view s (Some (command.Send address (Some tx) dup properties body)) reply t
        → t.durable ≡ s.durable }
    ensures rollback { (view : View) (s t : Broker) (tx : List ℕ) (reply : Reply)
        → Step view s (Some (command.Rollback tx)) reply t → t.durable ≡ s.durable }
{}
