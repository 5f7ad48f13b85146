//! Laws of the answers of a site, over their definitions.
ghost use Rattle.reg_folder.specs.Laws.{AnswersGoByFolderAndPath, PathsStayBelow};

use crate::files::SiteFiles;

/// The answer to a GET without a body goes by the folder and the path alone: what may be answered to one
/// may be answered to each with the same path, whatever else it has, as a token.
pub fn answers_go_by_folder_and_path<S: SiteFiles>()
    ensures { AnswersGoByFolderAndPath S.Finds }
{}

/// No path that is looked for leads out of the folder, or to what begins with a dot: none of its segments is
/// empty, `.` or `..`, or begins so.
pub fn paths_stay_below()
    ensures { PathsStayBelow }
{}
