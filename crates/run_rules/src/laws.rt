//! Laws of what may be committed. They are said of the definitions alone: the functions do nothing.

ghost use Rattle.std.specs.Prelude.{◌≡◌, ◌≤◌, ℕ, List, ◌++◌, Ok};
ghost use Rattle.dura_value.specs.Items.{Entry};
ghost use Rattle.dura_model.specs.Entries.{placed, AllGiven};
ghost use Rattle.run_rules.specs.Rules.{Rules, Told, Follows};

/// What may follow may follow still once more was said.
#[tactic(auto, using(crate::proofs::Going::follows_still))]
pub fn still_follows()
    ensures { (rules : Rules) (latest : ℕ) (settled going : List Entry) (told more : Told)
        → Follows rules latest settled told going
        → Follows rules latest settled (told ++ more) going }
{}

/// What may follow up to a stamp may follow up to a later one.
#[tactic(auto, using(crate::proofs::Going::follows_later))]
pub fn later_follows()
    ensures { (rules : Rules) (latest later : ℕ) (settled going : List Entry) (told : Told)
        → latest ≤ later → Follows rules latest settled told going
        → Follows rules later settled told going }
{}

/// Entries that followed are accepted behind those before them, and where each outcome of these is one that its activity may give, so
/// is each of all.
pub fn followers_go_on()
    ensures made { (rules : Rules) (latest : ℕ) (settled going : List Entry) (told : Told)
        → (follows : Follows rules latest settled told going)
        → placed rules.flows 1 rules.begin (settled ++ going) ≡ Ok follows.after }
    ensures given { (rules : Rules) (latest : ℕ) (settled going : List Entry) (told : Told)
        → AllGiven rules.flows 1 rules.begin settled → Follows rules latest settled told going
        → AllGiven rules.flows 1 rules.begin (settled ++ going) }
{}
