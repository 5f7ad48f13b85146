//! The laws of vacancies. Each function is its contract.
ghost use Rattle.reg_vacancies.specs.Laws.{EntriesAreReplaced, HoldersAreChanged, KeysDecide};

/// Where there are entries and blocks decides what is free, and not what they say.
pub fn keys_decide()
    ensures { KeysDecide }
{}

/// An entry in the place of one that stands leaves the vacancies.
pub fn entries_are_replaced()
    ensures { EntriesAreReplaced }
{}

/// What is changed in a holder, as a mark, leaves the vacancies.
pub fn holders_are_changed()
    ensures { HoldersAreChanged }
{}
