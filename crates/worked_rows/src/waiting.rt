// A world in which nothing is left to do, and one in which something is.
ghost use Rattle.worked_rows.specs.Waiting.{Waits, IsAsked};

/// An instance that waits for an event which nobody raises leaves the world quiet.
pub fn gate_waits_quietly()
    ensures { Waits }
{}

/// A world where a request is due isn't quiet.
pub fn a_due_request_isnt_quiet()
    ensures { IsAsked }
{}
