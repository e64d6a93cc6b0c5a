//! Laws about activities, each of which is the contract of a function with an empty body.
ghost use Rattle.sat_store.specs.heap.Rows.{BumpsPastTheLimit, SixtyDecays};

/// Gives examples in which decays and a bump rescale the activities.
pub fn rows_of_smaller_scales()
    ensures decays { SixtyDecays }
    ensures bump { BumpsPastTheLimit }
{}
