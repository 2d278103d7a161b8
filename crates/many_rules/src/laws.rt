//! Laws. The functions do nothing.

ghost use Rattle.std.specs.Prelude.{◌≡◌, ◌≢◌, ◌<◌, ◌≤◌, ℕ, List, [], ◌++◌, length, Some};
ghost use Rattle.dura_value.specs.Items.{Entry};
ghost use Rattle.hub_store.specs.Moments.{AtEveryMoment};
ghost use Rattle.hub_store.specs.Origin.{Origin};
ghost use Rattle.hub_store.specs.Trail.{Settled, Said, of_part, settling, settled_at};
ghost use Rattle.many_logs.specs.Placing.{states_after, of_partition, AllBelow};
ghost use Rattle.many_rules.specs.Rules.{Rules, Follows, Answers, Passes, GoesFrom, commits_of, known_of};
ghost use Rattle.dura_model.specs.Partition.{Partition, nobody, fresh};
ghost use Rattle.many_logs.specs.Labels.{AreNumbered};
ghost use Rattle.many_rules.specs.Leaves.{Begins, StandsOn};
ghost use Rattle.gated_store.specs.Follows.{Follows as GateFollows};
ghost use Rattle.gated_store.specs.Kept.{AreRecovered};
ghost use Rattle.many_rules.specs.Ledgers.{ledger_of, ledgers};
ghost use Rattle.many_rules.specs.Makes.{Makes};
ghost use Rattle.site_model.specs.History.{Step, IsImage, back_to};

/// What may be committed may be committed still once more of other partitions was settled and more was said, and up to a later stamp.
pub fn still_follows()
    ensures still { (rules : Rules) (latest : ℕ) (trail more : List Settled) (told also : List Said)
        (partition : ℕ) (going : List Entry) → of_part partition more ≡ []
        → Follows rules latest trail told partition going
        → Follows rules latest (trail ++ more) (told ++ also) partition going }
    ensures said { (rules : Rules) (latest : ℕ) (trail : List Settled) (told also : List Said)
        (partition : ℕ) (going : List Entry) → Follows rules latest trail told partition going
        → Follows rules latest trail (told ++ also) partition going }
    ensures settled { (rules : Rules) (latest : ℕ) (trail : List Settled) (told : List Said)
        (partition at : ℕ) (going : List Entry) (other : ℕ) (theirs : List Entry)
        → other ≢ partition → Follows rules latest trail told partition going
        → Follows rules latest trail told other theirs
        → Follows rules latest (trail ++ settling partition at going) told other theirs }
    ensures later { (rules : Rules) (latest later : ℕ) (trail : List Settled) (told : List Said)
        (partition : ℕ) (going : List Entry) → latest ≤ later
        → Follows rules latest trail told partition going
        → Follows rules later trail told partition going }
{}

/// What is known of a frame by its own partition and by the test before its gate is enough.
pub fn what_passes_goes()
    ensures { (rules : Rules) (trail : List Settled) (partition : ℕ) (going : List Entry)
        → states_after rules.flows rules.count fresh rules.recovered ≡ Some rules.begin
        → AreNumbered fresh (rules.recovered ++ commits_of trail)
        → Passes rules trail partition going → (states : ℕ → Partition)
        → states_after rules.flows rules.count rules.begin (commits_of trail) ≡ Some states
        → GoesFrom rules (known_of rules trail) states partition going }
{}

/// A frame that its partition's state makes, and that the ledgers of the others meet, as a store whose gate compares lets it pass, may follow
/// by the rules.
pub fn what_is_met_follows()
    ensures { (rules : Rules) (latest : ℕ) (trail : List Settled) (told : List Said)
        (partition : ℕ) (going : List Entry)
        → states_after rules.flows rules.count fresh rules.recovered ≡ Some rules.begin
        → AreNumbered fresh (rules.recovered ++ commits_of trail)
        → GateFollows (ledgers rules) (Makes rules) latest trail told partition going
        → Follows rules latest trail told partition going }
{}

/// What a store whose gate compares tells of its moments, it tells by the rules, where the entries that were recovered stand one position
/// after another in each partition, of incarnations that never fall: so what a crash leaves of it is what a crash leaves of a call that commits only what it may.
pub fn the_gate_keeps_the_rules()
    ensures { (o : Origin) (rules : Rules) (latest : ℕ) (now : List Step) (trail : List Settled)
        → states_after rules.flows rules.count fresh rules.recovered ≡ Some rules.begin
        → AreNumbered fresh rules.recovered
        → AtEveryMoment (GateFollows (ledgers rules) (Makes rules) latest) (Answers rules) o now
        trail → AtEveryMoment (Follows rules latest) (Answers rules) o now trail }
{}

/// At each moment of a call of many partitions that commits only what it may, a crash leaves files that stand for the run at the start,
/// then what was settled by then, then no more than one frame of each partition whose gate was being written.
pub fn each_crash_leaves_a_run()
    ensures { (o : Origin) (rules : Rules) (latest digest : ℕ) (now : List Step)
        (trail : List Settled) → Begins o rules digest
        → AtEveryMoment (Follows rules latest) (Answers rules) o now trail → (moment : ℕ)
        → length o.steps ≤ moment → moment ≤ length now → (files : ℕ → List ℕ)
        → IsImage (back_to moment now) files
        → StandsOn rules latest digest o (back_to moment now) (settled_at moment trail) files }
{}

/// Before anything is settled others see of each partition what the entries that were recovered made, and nobody took in a message from
/// past the count.
pub fn recovered_ledgers()
    ensures shown { (rules : Rules) (partition : ℕ) → partition < rules.count
        → ledgers rules partition []
        ≡ ledger_of (of_partition partition rules.recovered) (rules.begin partition) }
    ensures unread { (rules : Rules)
        → states_after rules.flows rules.count fresh rules.recovered ≡ Some rules.begin
        → AreNumbered fresh rules.recovered → (partition source : ℕ) → partition < rules.count
        → rules.count ≤ source → ((rules.begin partition).inboxes source).reader ≡ nobody }
{}

/// Each message that stands in a stream when a call begins was sent by an entry that was recovered, and which is known.
pub fn recovered_streams_are_known()
    ensures { (rules : Rules)
        → states_after rules.flows rules.count fresh rules.recovered ≡ Some rules.begin
        → AreNumbered fresh rules.recovered → AllBelow rules.count rules.recovered
        → AreRecovered (ledgers rules) }
{}
