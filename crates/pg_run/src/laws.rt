// Laws of what is seen beside pages, and of runs under such views. They have no code.
ghost use Rattle.std.specs.Prelude.{◌≡◌, ◌≤◌, ◌↔◌, ℕ, List, Option, length, true};
ghost use Rattle.pg_disk.specs.Views.{Contents};
ghost use Rattle.pg_msg.specs.declared.command.Command.{Command};
ghost use Rattle.pg_msg.specs.declared.reply.Reply.{Reply};
ghost use Rattle.pg_model.specs.Broker.{Broker};
ghost use Rattle.pg_model.specs.Refusals.{View};
ghost use Rattle.pg_model.specs.Steps.{Run};
ghost use Rattle.pg_run.specs.Sights.{HasSomePage, IsSeenBeside};

/// Beside given pages one view is seen of each address of a state, whatever files show it. The address pages in that view
/// exactly where one of its pages is among them. This law has no code.
pub fn one_view()
    ensures view { (pages : Contents) (s : Broker) (view other : View) → IsSeenBeside pages s view
        → IsSeenBeside pages s other → (id : ℕ) → 1 ≤ id → id ≤ length s.durable.addresses → view id ≡ other id }
    ensures paging { (pages : Contents) (s : Broker) (view : View) → IsSeenBeside pages s view
        → (id : ℕ) → 1 ≤ id → id ≤ length s.durable.addresses
        → ((view id).is_paging ≡ true) ↔ HasSomePage pages id }
{}

/// Beside given pages the state at the beginning and the lines decide each reply, and each state. This law has no code.
pub fn one_run()
    ensures { (pages : Contents) (first : Broker) (items : List (Option Command)) (replies others : List Reply)
        (states ends : List Broker) → Run (IsSeenBeside pages) first items replies states
        → Run (IsSeenBeside pages) first items others ends → (replies ≡ others) × (states ≡ ends) }
{}
