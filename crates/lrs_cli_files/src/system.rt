//! Inventories in files of the system, of which nothing is known before they are opened.

use crate::keeper::FileKeeper;
use crate::questions::FileQuestions;
use crate::stored::StoredFiles;
use lrs_desk::{Files, OpenFault};
use lrs_store_questions::StillFrom;
use sqlite::{FileFrom, FileStore, Unknown};
use std::rt::HostRuntime;

/// `StoredFiles` over unknown contents, as a type without parameters: the prover takes no other in `main`.
#[derive(Drop)]
pub struct SystemFiles {
    files: StoredFiles<Unknown, Unknown>,
}

impl SystemFiles {
    /// Files that have not been opened.
    pub fn new() -> SystemFiles {
        SystemFiles {
            files: StoredFiles::new(Unknown, Unknown),
        }
    }
}

impl Files for SystemFiles {
    type Kept = FileKeeper<FileStore<FileFrom<Unknown>>>;

    type Seen = FileQuestions<FileStore<StillFrom<Unknown>>>;

    ghost has_opened = { ⟦<StoredFiles<Unknown, Unknown> as Files>⟧.has_opened };

    ghost has_read = { ⟦<StoredFiles<Unknown, Unknown> as Files>⟧.has_read };

    ghost may_find = { λ s. ⟦<StoredFiles<Unknown, Unknown> as Files>⟧.may_find s.files };

    fn open(
        &mut self,
        rt: &HostRuntime,
        path: &str,
        new_has_sums: bool,
    ) -> Result<Self::Kept, OpenFault> {
        self.files.open(rt, path, new_has_sums)
    }

    fn open_to_look(
        &mut self,
        rt: &HostRuntime,
        path: &str,
    ) -> Result<Option<Self::Seen>, OpenFault> {
        self.files.open_to_look(rt, path)
    }

    fn close(&mut self, keeper: Self::Kept) {
        self.files.close(keeper);
    }

    fn discard(keeper: Self::Kept) {
        <StoredFiles<Unknown, Unknown> as Files>::discard(keeper);
    }

    fn discard_seen(keeper: Self::Seen) {
        <StoredFiles<Unknown, Unknown> as Files>::discard_seen(keeper);
    }
}
