//! Laws of frames that are met. The functions do nothing.

ghost use Rattle.std.specs.Prelude.{◌≡◌, ◌≢◌, ℕ, List};
ghost use Rattle.dura_value.specs.Items.{Item, Entry};
ghost use Rattle.log_items.specs.Streams.{Outbox, Sent, with_sent, boxes_after, LetGoInside};
ghost use Rattle.commit_gate.specs.Ledgers.{Ledger, after_frame};
ghost use Rattle.commit_gate.specs.Met.{AreMet};
ghost use Rattle.log_items.specs.Entries.{items_in};
ghost use Rattle.log_items.specs.Readings.{ReadOn};

/// What is met stays met while another partition settles a frame that is met.
pub fn met_frames_stay()
    ensures { (old new : ℕ → Ledger) (other : ℕ) (entries : List Entry) (sent : List Sent)
        → ((x : ℕ) → x ≢ other → new x ≡ old x) → new other ≡ after_frame (old other) entries sent
        → ReadOn (old other).nexts (items_in entries) → AreMet old other entries
        → (partition : ℕ) (mine : List Entry) → ReadOn (old partition).nexts (items_in mine)
        → AreMet old partition mine → AreMet new partition mine }
{}

/// What is sent joins before or after what is let go, where that lies inside the streams.
pub fn sent_and_let_go()
    ensures { (boxes : ℕ → Outbox) (items : List Item) (sent : List Sent) → LetGoInside boxes items
        → with_sent (boxes_after boxes items) sent ≡ boxes_after (with_sent boxes sent) items }
{}
