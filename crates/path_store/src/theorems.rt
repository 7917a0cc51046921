//! Why a line is on the disk after one sync, and what has to be so of a disk for that.

ghost use Rattle.std.specs.Prelude.{◌≡◌, ◌≢◌, ℕ, List, [], ◌∷◌, ◌++◌, length, All, true};
ghost use Rattle.path_model.specs.declared.journal.Line.{Line};
ghost use Rattle.path_model.specs.Declarations.{Declaration};
ghost use Rattle.path_model.specs.Rooms.{IsRoom};
ghost use Rattle.path_decl.specs.Lawful.{AreDistinctNames};
ghost use Rattle.path_lines.specs.LineTexts.{operation_names};
ghost use Rattle.path_journal.specs.JournalTexts.{Kept, KeptFits, lines_of};
ghost use Rattle.path_store.specs.AnyBytes.{LeavesAny};
ghost use Rattle.path_store.specs.Stores.{AreMarked, HasSome, IsLeft};

/// Where a crash may leave any bytes of a write that it cuts short, no format can do with one sync for a line, whatever is read of a
/// file and however lines are spelled, with a checksum or without: where two lines could be written behind the same file, and are as
/// long, then a crash while the one is written may leave the other.
pub fn one_sync_is_too_few()
    ensures { (read : List ℕ → List Line) (file this other : List ℕ) (ls : List Line) (line another : Line)
        → length this ≡ length other → read (file ++ this) ≡ ls ++ line ∷ [] → read (file ++ other) ≡ ls ++ another ∷ [] → line ≢ another
        → (left : List ℕ) × LeavesAny (length file) (length this) file left × (read left ≢ ls) × (read left ≢ ls ++ line ∷ []) }
{}

/// Where a crash leaves of each byte that byte or a zero, and the end may be missing, one sync is enough: of lines that were written
/// behind those that were synced, some are found whole, up to one of them, and behind them a torn end.
pub fn lines_need_no_checksum()
    ensures { (d : Declaration) (room : ℕ) (synced fresh : List Kept) (left : List ℕ) → AreDistinctNames (operation_names d) → IsRoom room
        → All (KeptFits true) (synced ++ fresh) → AreMarked fresh → IsLeft d room synced fresh left
        → HasSome d room (lines_of synced) (lines_of fresh) left }
{}
