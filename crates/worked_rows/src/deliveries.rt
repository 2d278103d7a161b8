// What each kind of message makes of each kind of receiver, and what the most events do.
ghost use Rattle.worked_rows.specs.Deliveries.{AbsentAgree, RunningAgree, EndedAgree, ParentAgrees, EntityAgrees, ClientAgrees, LimitAgrees, FindNothing};

pub fn to_an_absent_instance()
    ensures { AbsentAgree }
{}

pub fn to_a_running_instance()
    ensures { RunningAgree }
{}

pub fn to_an_ended_instance()
    ensures { EndedAgree }
{}

pub fn to_the_instance_that_started_it()
    ensures { ParentAgrees }
{}

pub fn to_an_entity()
    ensures { EntityAgrees }
{}

pub fn to_a_client()
    ensures { ClientAgrees }
{}

pub fn the_most_events()
    ensures { LimitAgrees }
{}

pub fn events_that_find_nothing()
    ensures { FindNothing }
{}
