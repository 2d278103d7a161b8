//! What files keep, where lives begin, what one life is, and what of it is settled in a run: each with all facts, and lacking just one. The
//! functions do nothing.

ghost use Rattle.std.specs.Prelude.{◌≤◌, ℕ, List, [], ◌∷◌, length};
ghost use Rattle.dura_value.specs.Dependencies.{Founded};
ghost use Rattle.flow_syntax.specs.Syntax.{Flows};
ghost use Rattle.join_laws.specs.Joined.{KeepsOn, BeginsOn, IsOneLife, IsSettledIn};
ghost use Rattle.many_logs.specs.Names.{identities_in, committed_in};
ghost use Rattle.many_logs.specs.Stands.{AreKept};
ghost use Rattle.part_items.specs.Examples.{digest};
ghost use Rattle.site_model.specs.History.{IsImage, content_of};
ghost use Rattle.world_examples.specs.Histories.{byte_written, byte_open, byte_beyond, first_of, letting_go, letting_files, quiet, behind_byte, settles_first, never_lived, WasOrOpened};

/// Files without bytes keep a run without entries, and no run that has one, though nothing came behind it that would have to be founded.
/// Files that keep an entry which names one that never was keep the run that has it, and don't keep it on behind a run without entries.
pub fn what_files_keep()
    ensures none { (flows : Flows) (count digest : ℕ) → KeepsOn flows count digest [] (λ file. []) }
    ensures kept { (flows : Flows) (digest : ℕ)
        → Founded (identities_in (first_of 0 ∷ [])) (committed_in [])
        × (KeepsOn flows 1 digest (first_of 0 ∷ []) (λ file. []) → ⊥) }
    ensures recovered { (flows : Flows)
        → KeepsOn flows 2 digest (letting_go ∷ []) letting_files }
    ensures founded { (flows : Flows) → AreKept flows 2 digest letting_files (letting_go ∷ [])
        × (KeepsOn flows 2 digest [] letting_files → ⊥) }
{}

/// A life may begin where a byte that wasn't made safe is gone. It doesn't begin where the files hold what no crash leaves, nor where a crash
/// may still leave what it couldn't before.
pub fn where_lives_begin()
    ensures gone { BeginsOn byte_written [] }
    ensures reads { ((image : ℕ → List ℕ) → IsImage byte_beyond image → IsImage [] image)
        × (BeginsOn [] byte_beyond → ⊥) }
    ensures leaves { IsImage [] (λ file. content_of file byte_open)
        × (BeginsOn [] byte_open → ⊥) }
{}

/// A life in which nothing happened is one life. Its moment isn't before its beginning, nor behind its end; and no entry is settled where
/// nothing happened.
pub fn what_one_life_is()
    ensures one { (flows : Flows) (count digest : ℕ) → IsOneLife flows count digest (quiet 0) }
    ensures lived { (flows : Flows) (count digest : ℕ) → (length never_lived.old ≤ 0)
        × (0 ≤ length never_lived.new) × (IsOneLife flows count digest never_lived → ⊥) }
    ensures begun { (flows : Flows) (count digest : ℕ)
        → WasOrOpened flows count digest (behind_byte 0) × (0 ≤ length (behind_byte 0).new)
        × (IsOneLife flows count digest (behind_byte 0) → ⊥) }
    ensures within { (flows : Flows) (count digest : ℕ)
        → WasOrOpened flows count digest (quiet 1) × (length (quiet 1).old ≤ 1)
        × (IsOneLife flows count digest (quiet 1) → ⊥) }
{}

/// What a life settled by its moment is in a run that has it, and not in one that hasn't, or has another entry in its place. Before it was
/// settled any run will do.
pub fn what_is_settled_in_a_run()
    ensures there { IsSettledIn (first_of 1 ∷ first_of 0 ∷ first_of 2 ∷ []) (settles_first 1) }
    ensures early { IsSettledIn [] (settles_first 0) }
    ensures split { IsSettledIn [] (settles_first 1) → ⊥ }
    ensures other { IsSettledIn (first_of 1 ∷ []) (settles_first 1) → ⊥ }
{}
