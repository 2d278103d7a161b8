// Whole runs. Made by tools/theorems from tools/runs.
ghost use Rattle.worked_rows.specs.Runs.Values.{Agrees as ValuesAgrees};
ghost use Rattle.worked_rows.specs.Runs.Ends.{Agrees as EndsAgrees};
ghost use Rattle.worked_rows.specs.Runs.Inside.{Agrees as InsideAgrees};
ghost use Rattle.worked_rows.specs.Runs.AnyTakesTheFirst.{Agrees as AnyTakesTheFirstAgrees};
ghost use Rattle.worked_rows.specs.Runs.Count4998.{Agrees as Count4998Agrees};
ghost use Rattle.worked_rows.specs.Runs.Count4999.{Agrees as Count4999Agrees};
ghost use Rattle.worked_rows.specs.Runs.Draw.{Agrees as DrawAgrees};
ghost use Rattle.worked_rows.specs.Runs.EarlyEventAwaited.{Agrees as EarlyEventAwaitedAgrees};
ghost use Rattle.worked_rows.specs.Runs.EarlyEventKept.{Agrees as EarlyEventKeptAgrees};
ghost use Rattle.worked_rows.specs.Runs.EarlyStamp.{Agrees as EarlyStampAgrees};
ghost use Rattle.worked_rows.specs.Runs.FailAndTry.{Agrees as FailAndTryAgrees};
ghost use Rattle.worked_rows.specs.Runs.Fan123.{Agrees as Fan123Agrees};
ghost use Rattle.worked_rows.specs.Runs.Fan132.{Agrees as Fan132Agrees};
ghost use Rattle.worked_rows.specs.Runs.Fan213.{Agrees as Fan213Agrees};
ghost use Rattle.worked_rows.specs.Runs.Fan231.{Agrees as Fan231Agrees};
ghost use Rattle.worked_rows.specs.Runs.Fan312.{Agrees as Fan312Agrees};
ghost use Rattle.worked_rows.specs.Runs.Fan321.{Agrees as Fan321Agrees};
ghost use Rattle.worked_rows.specs.Runs.GateWaits.{Agrees as GateWaitsAgrees};
ghost use Rattle.worked_rows.specs.Runs.LockRule.{Agrees as LockRuleAgrees};
ghost use Rattle.worked_rows.specs.Runs.Max.{Agrees as MaxAgrees};
ghost use Rattle.worked_rows.specs.Runs.Nap.{Agrees as NapAgrees};
ghost use Rattle.worked_rows.specs.Runs.Queries.{Agrees as QueriesAgrees};
ghost use Rattle.worked_rows.specs.Runs.Spin.{Agrees as SpinAgrees};
ghost use Rattle.worked_rows.specs.Runs.Sum.{Agrees as SumAgrees};
ghost use Rattle.worked_rows.specs.Runs.Tick.{Agrees as TickAgrees};
ghost use Rattle.worked_rows.specs.Runs.Trace000.{Agrees as Trace000Agrees};
ghost use Rattle.worked_rows.specs.Runs.Trace002.{Agrees as Trace002Agrees};
ghost use Rattle.worked_rows.specs.Runs.Trace006.{Agrees as Trace006Agrees};
ghost use Rattle.worked_rows.specs.Runs.Trace007.{Agrees as Trace007Agrees};
ghost use Rattle.worked_rows.specs.Runs.Trace023.{Agrees as Trace023Agrees};
ghost use Rattle.worked_rows.specs.Runs.Trace030.{Agrees as Trace030Agrees};
ghost use Rattle.worked_rows.specs.Runs.Trace034.{Agrees as Trace034Agrees};
ghost use Rattle.worked_rows.specs.Runs.Trace038.{Agrees as Trace038Agrees};
ghost use Rattle.worked_rows.specs.Runs.Trace044.{Agrees as Trace044Agrees};
ghost use Rattle.worked_rows.specs.Runs.Trace046.{Agrees as Trace046Agrees};
ghost use Rattle.worked_rows.specs.Runs.Trace050.{Agrees as Trace050Agrees};
ghost use Rattle.worked_rows.specs.Runs.Trace053.{Agrees as Trace053Agrees};
ghost use Rattle.worked_rows.specs.Runs.Transfers.{Agrees as TransfersAgrees};

pub fn values()
    ensures { ValuesAgrees }
{}

pub fn ends()
    ensures { EndsAgrees }
{}

pub fn inside()
    ensures { InsideAgrees }
{}

pub fn any_takes_the_first()
    ensures { AnyTakesTheFirstAgrees }
{}

pub fn count_4998()
    ensures { Count4998Agrees }
{}

pub fn count_4999()
    ensures { Count4999Agrees }
{}

pub fn draw()
    ensures { DrawAgrees }
{}

pub fn early_event_awaited()
    ensures { EarlyEventAwaitedAgrees }
{}

pub fn early_event_kept()
    ensures { EarlyEventKeptAgrees }
{}

pub fn early_stamp()
    ensures { EarlyStampAgrees }
{}

pub fn fail_and_try()
    ensures { FailAndTryAgrees }
{}

pub fn fan_123()
    ensures { Fan123Agrees }
{}

pub fn fan_132()
    ensures { Fan132Agrees }
{}

pub fn fan_213()
    ensures { Fan213Agrees }
{}

pub fn fan_231()
    ensures { Fan231Agrees }
{}

pub fn fan_312()
    ensures { Fan312Agrees }
{}

pub fn fan_321()
    ensures { Fan321Agrees }
{}

pub fn gate_waits()
    ensures { GateWaitsAgrees }
{}

pub fn lock_rule()
    ensures { LockRuleAgrees }
{}

pub fn max()
    ensures { MaxAgrees }
{}

pub fn nap()
    ensures { NapAgrees }
{}

pub fn queries()
    ensures { QueriesAgrees }
{}

pub fn spin()
    ensures { SpinAgrees }
{}

pub fn sum()
    ensures { SumAgrees }
{}

pub fn tick()
    ensures { TickAgrees }
{}

pub fn trace_000()
    ensures { Trace000Agrees }
{}

pub fn trace_002()
    ensures { Trace002Agrees }
{}

pub fn trace_006()
    ensures { Trace006Agrees }
{}

pub fn trace_007()
    ensures { Trace007Agrees }
{}

pub fn trace_023()
    ensures { Trace023Agrees }
{}

pub fn trace_030()
    ensures { Trace030Agrees }
{}

pub fn trace_034()
    ensures { Trace034Agrees }
{}

pub fn trace_038()
    ensures { Trace038Agrees }
{}

pub fn trace_044()
    ensures { Trace044Agrees }
{}

pub fn trace_046()
    ensures { Trace046Agrees }
{}

pub fn trace_050()
    ensures { Trace050Agrees }
{}

pub fn trace_053()
    ensures { Trace053Agrees }
{}

pub fn transfers()
    ensures { TransfersAgrees }
{}
