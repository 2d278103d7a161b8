// Tables of what instances look at, of their histories and timers, of activities and of files.
ghost use Rattle.worked_rows.specs.Tables.Activities.{Give, sums, joins, draws, others};
ghost use Rattle.worked_rows.specs.Tables.Checks.{ChecksAgree};
ghost use Rattle.worked_rows.specs.Tables.Histories.{CallAgrees, EarlyAgrees, TimerAgrees, HistoryAgrees};
ghost use Rattle.worked_rows.specs.Tables.Tasks.{ResultsAgree, OpenAgree, HandlesAgree, SetsAgree, SectionsAgree, KeptAgree};
ghost use Rattle.worked_rows.specs.Tables.Timers.{TimersAgree, GoInOrder};

pub fn tasks()
    ensures results { ResultsAgree }
    ensures still_open { OpenAgree }
    ensures handles { HandlesAgree }
{}

pub fn sections()
    ensures sets { SetsAgree }
    ensures rules { SectionsAgree }
{}

pub fn kept_events()
    ensures { KeptAgree }
{}

pub fn histories()
    ensures of_a_call { CallAgrees }
    ensures of_an_early_event { EarlyAgrees }
    ensures of_a_timer { TimerAgrees }
    ensures made_again { HistoryAgrees }
{}

pub fn activities()
    ensures sums { Give sums }
    ensures joins { Give joins }
    ensures draws { Give draws }
    ensures others { Give others }
{}

pub fn checks()
    ensures { ChecksAgree }
{}

pub fn timers()
    ensures stamps { TimersAgree }
    ensures order { GoInOrder }
{}
