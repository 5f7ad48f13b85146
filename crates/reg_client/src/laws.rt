//! Laws of what is due, as the contracts of functions that do nothing.
ghost use Rattle.reg_client.specs.Laws.{AllocationsAreDue};

/// Of a page just the Temporary entries are due that expire within so many days.
pub fn allocations_are_due()
    ensures { AllocationsAreDue }
{}
