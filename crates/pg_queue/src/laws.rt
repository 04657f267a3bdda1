// Laws of a queue's entries.
ghost use Rattle.std.specs.Prelude.{◌≡◌, ◌++◌, ◌∷◌, ◌&&◌, ◌||◌, [], List, Bool, true, false, not, None, Some};
ghost use Rattle.pg_msg.specs.declared.message.MessageId.{MessageId};
ghost use Rattle.pg_queue.specs.Entries.{Entry, added, entry_at, first_waiting, has_entry, is_same, is_taken, marked, without_entry};
ghost use Rattle.pg_queue.specs.Rows.{AreThoseOf, without_id};

/// What a queue's calls make of entries that are those of rows: they are still so, when the rows change as the call's
/// sentence says. This law has no code.
pub fn as_the_rows_say()
    ensures begins { AreThoseOf [] [] }
    ensures added { (ids : List MessageId) (entries : List Entry) (id : MessageId) → AreThoseOf ids entries → AreThoseOf (ids ++ id ∷ []) (added (entry_at id None) entries) }
    ensures marked { (ids : List MessageId) (entries : List Entry) (taken : Bool) (entry : Entry) → AreThoseOf ids entries → AreThoseOf ids (marked taken entry entries) }
    ensures left { (ids : List MessageId) (entries : List Entry) (id : MessageId) → AreThoseOf ids entries → AreThoseOf (without_id id ids) (without_entry (entry_at id None) entries) }
{}

/// An entry that is marked as taken is taken if it is there, and the others stay as they are. The first that waits is there. This
/// law has no code.
pub fn marks_stay_apart()
    ensures itself { (entries : List Entry) (entry : Entry) → is_taken (marked true entry entries) entry ≡ has_entry entries entry }
    ensures others { (entries : List Entry) (taken : Bool) (entry other : Entry) → is_same entry other ≡ false → is_taken (marked taken entry entries) other ≡ is_taken entries other }
    ensures given { (entries : List Entry) (entry : Entry) → first_waiting entries ≡ Some entry → has_entry entries entry ≡ true }
{}

/// Which entries there are, and which are taken, where one is marked, comes or goes: no other is touched. This law has no code.
pub fn others_stay()
    ensures marked { (entries : List Entry) (taken : Bool) (entry other : Entry) → has_entry (marked taken entry entries) other ≡ has_entry entries other }
    ensures added { (entries : List Entry) (entry other : Entry) → has_entry (added entry entries) other ≡ (is_same entry other || has_entry entries other) }
    ensures added_waits { (entries : List Entry) (entry other : Entry) → entry.taken ≡ false → is_taken (added entry entries) other ≡ is_taken entries other }
    ensures left { (entries : List Entry) (entry other : Entry) → has_entry (without_entry entry entries) other ≡ (not (is_same entry other) && has_entry entries other) }
    ensures left_taken { (entries : List Entry) (entry other : Entry) → is_taken (without_entry entry entries) other ≡ (not (is_same entry other) && is_taken entries other) }
{}
