// Runs of others, split over partitions. Made by tools/theorems from tools/runs.
ghost use Rattle.many_examples.specs.Splits.{Agree};
ghost use Rattle.worked_rows.specs.Runs.Trace000 as trace_000;
ghost use Rattle.worked_rows.specs.Runs.Trace002 as trace_002;
ghost use Rattle.worked_rows.specs.Runs.Trace006 as trace_006;
ghost use Rattle.worked_rows.specs.Runs.Trace007 as trace_007;
ghost use Rattle.worked_rows.specs.Runs.Trace023 as trace_023;
ghost use Rattle.worked_rows.specs.Runs.Trace030 as trace_030;
ghost use Rattle.worked_rows.specs.Runs.Trace034 as trace_034;
ghost use Rattle.worked_rows.specs.Runs.Trace038 as trace_038;
ghost use Rattle.worked_rows.specs.Runs.Trace044 as trace_044;
ghost use Rattle.worked_rows.specs.Runs.Trace046 as trace_046;
ghost use Rattle.worked_rows.specs.Runs.Trace050 as trace_050;
ghost use Rattle.worked_rows.specs.Runs.Trace053 as trace_053;

pub fn split_trace_000()
    ensures over_2 { Agree trace_000.flows 2 trace_000.run trace_000.asked trace_000.answers 4 }
    ensures over_3 { Agree trace_000.flows 3 trace_000.run trace_000.asked trace_000.answers 0 }
    ensures over_4 { Agree trace_000.flows 4 trace_000.run trace_000.asked trace_000.answers 4 }
{}

pub fn split_trace_002()
    ensures over_2 { Agree trace_002.flows 2 trace_002.run trace_002.asked trace_002.answers 0 }
    ensures over_3 { Agree trace_002.flows 3 trace_002.run trace_002.asked trace_002.answers 4 }
    ensures over_4 { Agree trace_002.flows 4 trace_002.run trace_002.asked trace_002.answers 0 }
{}

pub fn split_trace_006()
    ensures over_2 { Agree trace_006.flows 2 trace_006.run trace_006.asked trace_006.answers 4 }
    ensures over_3 { Agree trace_006.flows 3 trace_006.run trace_006.asked trace_006.answers 10 }
    ensures over_4 { Agree trace_006.flows 4 trace_006.run trace_006.asked trace_006.answers 8 }
{}

pub fn split_trace_007()
    ensures over_2 { Agree trace_007.flows 2 trace_007.run trace_007.asked trace_007.answers 17 }
    ensures over_3 { Agree trace_007.flows 3 trace_007.run trace_007.asked trace_007.answers 25 }
    ensures over_4 { Agree trace_007.flows 4 trace_007.run trace_007.asked trace_007.answers 25 }
{}

pub fn split_trace_023()
    ensures over_2 { Agree trace_023.flows 2 trace_023.run trace_023.asked trace_023.answers 30 }
    ensures over_3 { Agree trace_023.flows 3 trace_023.run trace_023.asked trace_023.answers 26 }
    ensures over_4 { Agree trace_023.flows 4 trace_023.run trace_023.asked trace_023.answers 33 }
{}

pub fn split_trace_030()
    ensures over_2 { Agree trace_030.flows 2 trace_030.run trace_030.asked trace_030.answers 12 }
    ensures over_3 { Agree trace_030.flows 3 trace_030.run trace_030.asked trace_030.answers 18 }
    ensures over_4 { Agree trace_030.flows 4 trace_030.run trace_030.asked trace_030.answers 20 }
{}

pub fn split_trace_034()
    ensures over_2 { Agree trace_034.flows 2 trace_034.run trace_034.asked trace_034.answers 10 }
    ensures over_3 { Agree trace_034.flows 3 trace_034.run trace_034.asked trace_034.answers 22 }
    ensures over_4 { Agree trace_034.flows 4 trace_034.run trace_034.asked trace_034.answers 15 }
{}

pub fn split_trace_038()
    ensures over_2 { Agree trace_038.flows 2 trace_038.run trace_038.asked trace_038.answers 10 }
    ensures over_3 { Agree trace_038.flows 3 trace_038.run trace_038.asked trace_038.answers 12 }
    ensures over_4 { Agree trace_038.flows 4 trace_038.run trace_038.asked trace_038.answers 12 }
{}

pub fn split_trace_044()
    ensures over_2 { Agree trace_044.flows 2 trace_044.run trace_044.asked trace_044.answers 10 }
    ensures over_3 { Agree trace_044.flows 3 trace_044.run trace_044.asked trace_044.answers 14 }
    ensures over_4 { Agree trace_044.flows 4 trace_044.run trace_044.asked trace_044.answers 20 }
{}

pub fn split_trace_046()
    ensures over_2 { Agree trace_046.flows 2 trace_046.run trace_046.asked trace_046.answers 0 }
    ensures over_3 { Agree trace_046.flows 3 trace_046.run trace_046.asked trace_046.answers 22 }
    ensures over_4 { Agree trace_046.flows 4 trace_046.run trace_046.asked trace_046.answers 2 }
{}

pub fn split_trace_050()
    ensures over_2 { Agree trace_050.flows 2 trace_050.run trace_050.asked trace_050.answers 4 }
    ensures over_3 { Agree trace_050.flows 3 trace_050.run trace_050.asked trace_050.answers 12 }
    ensures over_4 { Agree trace_050.flows 4 trace_050.run trace_050.asked trace_050.answers 8 }
{}

pub fn split_trace_053()
    ensures over_2 { Agree trace_053.flows 2 trace_053.run trace_053.asked trace_053.answers 11 }
    ensures over_3 { Agree trace_053.flows 3 trace_053.run trace_053.asked trace_053.answers 16 }
    ensures over_4 { Agree trace_053.flows 4 trace_053.run trace_053.asked trace_053.answers 19 }
{}
