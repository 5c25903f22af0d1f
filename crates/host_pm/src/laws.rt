// What follows of records that a device keeps. Nothing runs here.
ghost use Rattle.host_pm.specs.FromScratch.{EachFromScratch};

/// Incremental equals from scratch: whatever commands led to a device that keeps a record, it shows what a fresh firmware shows
/// to which the record is sent at once, that is the bring-up list, the streams' parameters and their triggers.
pub fn incremental_equals_from_scratch()
    ensures { EachFromScratch }
{}
