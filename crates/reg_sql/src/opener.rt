//! What opens the store of an office.
ghost use Rattle.sqlite_wal.specs.Files.{image_at};
ghost use Rattle.reg_sql.specs.Opening.{OpensFiles};

use reg_opening::opens::Opens;
use sqlite::{Connection, Error, FileFrom, FileStore, Leftover, Start};

/// What opens the store at a path, and tells what it may answer. What an office is refused for is
/// exact of what it tells.
pub trait Opener: Drop {
    ghost use Rattle.std.specs.Prelude.{List, Result, ℕ};
    ghost use Rattle.sqlite.specs.Held.{Held};
    ghost use Rattle.sqlite.specs.declared.error.Error.{Error as OfOpening};

    /// The store that is opened.
    type Base: Opens + Drop;

    /// What is left of what was opened where there is no store.
    type Left: Drop;

    /// What it may answer at a path.
    ghost Opens: { List ℕ → Result (Held Self.Base) (OfOpening × Self.Left) → Type 0 };

    /// Opens the store at a path.
    fn open(
        self,
        rt: &HostRuntime,
        path: &str,
    ) -> Result<Connection<Self::Base>, (Error, Self::Left)>
        ensures { Opens path.now result };
}

/// The files of the system at a path, where `start` says what they hold. They are made where they are
/// absent. When an opening of them answers that they cannot be opened, or that another has them open,
/// the library does not say.
#[derive(Drop)]
pub struct SystemFiles<T: Start> {
    /// What they hold.
    pub start: T,
}

impl<T: Start> Opener for SystemFiles<T> {
    type Base = FileStore<FileFrom<T>>;

    type Left = Option<Leftover<FileFrom<T>>>;

    ghost Opens = { λ path. OpensFiles (image_at T.Start) };

    fn open(
        self,
        rt: &HostRuntime,
        path: &str,
    ) -> Result<Connection<Self::Base>, (Error, Self::Left)> {
        let SystemFiles { start } = self;
        match Connection::open_from(rt, path, false, start) {
            Ok(conn) => Ok(conn),
            Err((error, left)) => Err((error, left)),
        }
    }
}
