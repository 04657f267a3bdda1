// Laws of the broker's refusals and of its routing. They have no code.
ghost use Rattle.std.specs.Prelude.{◌≡◌, ℕ, List, Option};
ghost use Rattle.pg_msg.specs.declared.properties.Property.{Property};
ghost use Rattle.pg_msg.specs.declared.reply.Refusal.{Refusal};
ghost use Rattle.pg_model.specs.Actions.{Action};
ghost use Rattle.pg_model.specs.Broker.{Broker, IsValid};
ghost use Rattle.pg_model.specs.Causes.{IsFirst};
ghost use Rattle.pg_model.specs.Refusals.{View, causes};
ghost use Rattle.pg_model.specs.Routing.{IsRouted};

/// An action is refused for one cause at most, whatever else holds.
pub fn one_refusal()
    ensures { (view : View) (s : Broker) (action : Action) (a b : Option Refusal) → IsFirst (causes view s action) a
        → IsFirst (causes view s action) b → a ≡ b }
{}

/// In a valid state a message to an address goes to the queues of one list of ids, and of no other.
pub fn one_routing()
    ensures one { (s : Broker) (address : ℕ) (properties : List Property) (a b : List ℕ)
        → IsRouted s address properties a → IsRouted s address properties b → a ≡ b }
    ensures some { (s : Broker) (address : ℕ) (properties : List Property) → IsValid s
        → (ids : List ℕ) × IsRouted s address properties ids }
{}
