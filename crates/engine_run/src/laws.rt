//! How a program begins. It is said of the definitions alone: the function does nothing.

ghost use Rattle.std.specs.Prelude.{◌≡◌, ◌≤◌, ℕ, List, []};
ghost use Rattle.join_laws.specs.Joined.{BeginsOn};
ghost use Rattle.site_calls.specs.Events.{file_numbers, start_of};
ghost use Rattle.site_model.specs.History.{Step, IsImage};

/// The history of recorded calls begins on a crash image where the program's files hold it, and are numbered as it numbers them.
pub fn programs_begin_on_images()
    ensures { (before : List Step) (files : ℕ → List ℕ) → IsImage before files
        → ((file : ℕ) → file_numbers ≤ file → files file ≡ []) → BeginsOn before (start_of files) }
{}
