// Laws of the messages of a queue that stand in pages. They have no code.
ghost use Rattle.std.specs.Prelude.{All, ◌≡◌, ◌≢◌, ◌≤◌, ◌∷◌, ◌++◌, ◌-◌, ◌^◌, ℕ, false, if◌then◌else◌, List, [], length, min, None, Some};
ghost use Rattle.pg_acks.specs.declared.position.Position.{Position};
ghost use Rattle.pg_acks.specs.Acked.{AckSets, with_position, without_queue};
ghost use Rattle.pg_msg.specs.declared.message.MessageId.{MessageId};
ghost use Rattle.pg_page.specs.declared.frame.Frame.{Frame};
ghost use Rattle.pg_page.specs.declared.place.Place.{Place};
ghost use Rattle.pg_page.specs.Pages.{HasFrames, Pages};
ghost use Rattle.pg_pagetx.specs.Standings.{Transactions};
ghost use Rattle.pg_model.specs.Broker.{same_id};
ghost use Rattle.pg_model.specs.Changes.{without_message};
ghost use Rattle.pg_cursor.specs.Counting.{HasCount, IsCounted};
ghost use Rattle.pg_cursor.specs.Entries.{HasFrame, names, pages_from};
ghost use Rattle.pg_cursor.specs.Tracking.{Cursor, IsFirstAvailable, IsGiven};
ghost use Rattle.pg_paged.specs.Paged.{Frames, first_free, is_left, paged_for, same_position};

/// What is left for a queue changes with the frames and with what is acknowledged: a frame more stands behind the others,
/// where no frame names the queue there is nothing, and an acknowledged position takes its message out. What is
/// acknowledged at another queue, or forgotten of it, changes nothing. This law has no code.
pub fn frames_change()
    ensures more { (acks : AckSets) (txs : Transactions) (queue : ℕ) (frames : Frames) (position : Position)
        (frame : Frame) → paged_for acks txs queue (frames ++ (position, frame) ∷ [])
        ≡ (if is_left acks txs queue (position, frame) then paged_for acks txs queue frames ++ frame.message ∷ []
        else paged_for acks txs queue frames) }
    ensures unnamed { (acks : AckSets) (txs : Transactions) (queue : ℕ) (frames : Frames)
        → All (λ framed. names queue framed.1 ≡ false) frames → paged_for acks txs queue frames ≡ [] }
    ensures acknowledged { (acks : AckSets) (txs : Transactions) (queue : ℕ) (frames : Frames) (position : Position)
        (id : MessageId) → All (λ other. same_position other.0 position ≡ same_id other.1.message.id id) frames
        → paged_for (with_position queue position acks) txs queue frames
        ≡ without_message id (paged_for acks txs queue frames) }
    ensures elsewhere { (acks : AckSets) (txs : Transactions) (queue other : ℕ) (frames : Frames) (position : Position)
        → other ≢ queue
        → paged_for (with_position other position acks) txs queue frames ≡ paged_for acks txs queue frames }
    ensures dropped { (acks : AckSets) (txs : Transactions) (queue gone : ℕ) (frames : Frames) → gone ≢ queue
        → paged_for (without_queue gone acks) txs queue frames ≡ paged_for acks txs queue frames }
{}

/// The first place that is available to a cursor has the first frame that is left for its queue at a position that isn't
/// taken. Where the cursor has nothing to give up to a last page, and no frame is behind that page, there is no such
/// frame. This law has no code.
pub fn first_left()
    ensures given { (first : ℕ) (frames : Frames) (pages : Pages) (cursor : Cursor) (acks : AckSets) (txs : Transactions)
        (place : Place) (frame : Frame) → HasFrames first frames pages
        → IsFirstAvailable cursor acks txs (pages_from first pages) place
        → HasFrame (pages_from first pages) place frame
        → first_free acks txs cursor.queue cursor.taken frames ≡ Some (place.position, frame) }
    ensures none_left { (first last : ℕ) (frames : Frames) (pages : Pages) (cursor : Cursor) (acks : AckSets)
        (txs : Transactions) → HasFrames first frames pages
        → IsGiven last cursor acks txs None (pages_from first pages) → All (λ framed. framed.0.page ≤ last) frames
        → first_free acks txs cursor.queue cursor.taken frames ≡ None }
{}

/// What a cursor counts, where no frame is behind the last page, are the messages that are left for its queue, or 2^64 - 1
/// where they are more. This law has no code.
pub fn count_left()
    ensures { (first last count : ℕ) (frames : Frames) (pages : Pages) (cursor : Cursor) (acks : AckSets)
        (txs : Transactions) → HasFrames first frames pages → All (λ framed. framed.0.page ≤ last) frames
        → HasCount (IsCounted last cursor acks txs (pages_from first pages)) count
        → count ≡ min (length (paged_for acks txs cursor.queue frames)) (2 ^ 64 - 1) }
{}
