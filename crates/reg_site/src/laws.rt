//! Laws of the published site, as the contracts of functions that do nothing.
ghost use Rattle.reg_site.specs.Bar.{PicturesAreShort};
ghost use Rattle.reg_site.specs.Laws.{FilesStayInside, ListingsAreOfPages, MomentsStandOnTheIndex, NotesOnNothingAreHidden, PrivateHoldersAreUnpublished, SameRegistersSameSite, SitesAreOfAnswers};

/// Two offices that publish the same registers publish the same bytes, with the same notes and the same
/// history, whatever else they hold.
pub fn same_registers_same_site()
    ensures { SameRegistersSameSite }
{}

/// What a site is made of is what every caller is told, whoever it is.
pub fn sites_are_of_answers()
    ensures { SitesAreOfAnswers }
{}

/// A registry that is told is listed as the same page, so its listing is the very answer of an office.
pub fn listings_are_of_pages()
    ensures { ListingsAreOfPages }
{}

/// The moment stands on the first page and in the index for programs alone: at two moments of a day each
/// other file is the same but the sums, where nothing is recorded.
pub fn moments_stand_on_the_index()
    ensures { MomentsStandOnTheIndex }
{}

/// No file leaves the folder of the site.
pub fn files_stay_inside()
    ensures { FilesStayInside }
{}

/// A private holder is shown as `Private`, with no organization and no address.
pub fn private_holders_are_hidden()
    ensures { PrivateHoldersAreUnpublished }
{}

/// The picture of a registry shows its entries in at most 400 parts.
pub fn pictures_are_short()
    ensures { PicturesAreShort }
{}

/// A note on a value without an entry has no effect on any byte of any file.
pub fn notes_on_nothing_are_hidden()
    ensures { NotesOnNothingAreHidden }
{}
