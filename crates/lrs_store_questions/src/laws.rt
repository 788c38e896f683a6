//! What a question finds is what the keeper that takes changes finds.

ghost use Rattle.std.specs.Prelude.{◌≡◌, Result};
ghost use Rattle.sqlite_trees.specs.Tree.{Trees};
ghost use Rattle.sqlite_wal.specs.Recovery.{Image as FileImage};
ghost use Rattle.sqlite.specs.Files.{HoldsDatabase, file_state};
ghost use Rattle.lrs_machine.specs.declared.image.Image.{Image as ImageRows};
ghost use Rattle.lrs_machine.specs.declared.table.Table.{Table as DeclaredTable};
ghost use Rattle.lrs_store_tables.specs.HeldRows.{MayHold};
ghost use Rattle.lrs_store_files.specs.OpenedFiles.{HasOpened};
ghost use Rattle.lrs_store_questions.specs.FileAnswers.{HasRead};

use sqlite::{Connection, FileStore};
use sqlite_disk::Disk;

/// Of files that hold a database: what is read for questions is what is found by a connection that opened them.
pub fn same_answer<D: Disk + Drop>(_conn: &Connection<FileStore<D>>)
    ensures { (image : FileImage) (c : Result ImageRows DeclaredTable) (d : Result ImageRows DeclaredTable)
        (db : Trees) → HoldsDatabase image db → HasRead image c
        → HasOpened image (file_state _conn.now) → MayHold (file_state _conn.now) d → c ≡ d }
{}
