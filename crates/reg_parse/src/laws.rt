//! Laws of what is read, over its definitions.
ghost use Rattle.reg_parse.specs.Laws.{CommandsHaveForm, FilesHaveOwnFaults, PathsOfTokensAreHidden, PatternsAreOfTheTable, PrivatePathsAreShownAlike};

/// The texts and numbers of a command that bytes spell have their forms.
pub fn commands_have_form()
    ensures { CommandsHaveForm }
{}

/// The fault that a range file is refused with is never want of memory, which only a call can meet.
pub fn files_have_own_faults()
    ensures { FilesHaveOwnFaults }
{}

/// What a log shows of two paths of the same route, which is not public, is the same text. So it tells
/// nothing of what stands in the path.
pub fn private_paths_are_shown_alike()
    ensures { PrivatePathsAreShownAlike }
{}

/// The path of a command that takes a token is not shown as it is.
pub fn paths_of_tokens_are_hidden()
    ensures { PathsOfTokensAreHidden }
{}

/// The pattern that stands for the paths of a row of the table is that of the row.
pub fn patterns_are_of_the_table()
    ensures { PatternsAreOfTheTable }
{}
