//! What was put and what came, over any puts and takes.

ghost use Rattle.part_transport.specs.Histories.{InOrder, OnlyWhatWasPut};

/// Each packet that was taken for a partition, or is still in its queue or held, was put for it.
pub fn only_what_was_put()
    ensures { OnlyWhatWasPut }
{}

/// Without disturbance the packets that were taken for a partition and those that are still there are those that were put for it, in their
/// order.
pub fn undisturbed_in_order()
    ensures { InOrder }
{}
