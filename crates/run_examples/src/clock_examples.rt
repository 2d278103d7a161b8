//! Examples of what goes by a clock.

ghost use Rattle.std.specs.Prelude.{◌≡◌, ◌<◌, ◌≤◌, ℕ, [], ◌∷◌};
ghost use Rattle.dura_value.specs.Ids.{Id};
ghost use Rattle.engine_rounds.specs.Heard.{BeginsAt, GoesByClock, heard_of};
ghost use Rattle.engine_rounds.specs.declared.driving.End.TheVariants as ends;
ghost use Rattle.engine_rounds.specs.declared.serving.Came.TheVariants as cames;
ghost use Rattle.engine_rounds.specs.declared.serving.Came.{Came as HowItCame};
ghost use Rattle.many_rules.specs.Rules.{Rules};
ghost use Rattle.node_core.specs.declared.halt.Halt.TheVariants as halts;
ghost use Rattle.round_steps.specs.Labels.{AreFew};
ghost use Rattle.run_examples.specs.Clocks.{delivered, delivered_often, one_at_a_time};
ghost use Rattle.site_model.specs.Readings.{asked};

/// A call goes by its clock where a delivery is at the moment heard of last, and the clock is read while less was settled than is enough.
pub fn calls_go_by_clocks()
    ensures goes { (rules : Rules) (from to : Id) → 0 < rules.most
        → GoesByClock rules 1 [] 5 [] (asked 7 ∷ []) 7 (delivered from to 7) }
    ensures crowded { (rules : Rules) (enough : ℕ) (from to : Id) → rules.most ≡ 0
        → GoesByClock rules enough [] 5 [] [] 5 (delivered from to 5) → ⊥ }
    ensures early { (rules : Rules) (enough : ℕ) (from to : Id) → GoesByClock rules enough [] 5 [] [] 5
        (delivered from to 4) → ⊥ }
    ensures late { (rules : Rules) (enough : ℕ) (from to : Id) → (rules.begin 0).stamp ≤ 5
        → GoesByClock rules enough [] 5 [] [] 5 (delivered from to 6) → ⊥ }
    ensures enough { (rules : Rules) → GoesByClock rules 0 [] 5 [] (asked 7 ∷ []) 7 [] → ⊥ }
{}

/// A call to which the clock gave no moment settles nothing, and ends for that.
pub fn calls_begin_at_moments()
    ensures failed { (rules : Rules) (enough : ℕ) → BeginsAt rules enough (heard_of [] [] 5) []
        (cames.Halted halts.ClockFault) 0 }
    ensures settled { (rules : Rules) (enough : ℕ) (from to : Id) (came : HowItCame) (since : ℕ)
        → BeginsAt rules enough (heard_of [] [] 5) (delivered from to 5) came since → ⊥ }
    ensures cause { (rules : Rules) (enough since : ℕ) → BeginsAt rules enough (heard_of [] [] 5) []
        (cames.Ended ends.Rest) since → ⊥ }
{}

/// Where one label is enough, and an entry has one item, a frame of 64 entries may still come behind none, and no more.
pub fn labels_are_few()
    ensures frame { (from to : Id) → AreFew one_at_a_time 1 (delivered_often 64 from to) }
    ensures more { (from to : Id) → AreFew one_at_a_time 1 (delivered_often 65 from to) → ⊥ }
{}
