// Laws of the definitions. Each is the contract of a function that does nothing.
ghost use Rattle.std.specs.Prelude.{◌≡◌, true, ℕ, List};
ghost use Rattle.site_model.specs.History.{Change, Step, reads, writes_inside, changes_of, syncing, AllInside, Leaves};

/// What a read gives of a file whose writes each began inside it is one of its crash images.
pub fn what_a_read_gives_is_an_image()
    ensures { (changes : List Change) → writes_inside changes ≡ true
        → Leaves changes (reads changes) }
{}

/// Syncs leave no new crash image. So whichever of some files a crash finds synced, and in whatever order the disk took
/// them, it leaves of each file an image of the moment before.
pub fn syncs_leave_no_new_image()
    ensures { (files : List ℕ) (steps : List Step) (file : ℕ) (image : List ℕ) → AllInside steps
        → Leaves (changes_of file (syncing files steps)) image
        → Leaves (changes_of file steps) image }
{}
