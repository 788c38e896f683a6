//! Where the files of an inventory stand, and whether they still do.

ghost use Rattle.std.specs.Prelude.{◌≡◌, IfErr};

use lrs_desk::OpenFault;
use std::fs;
use std::os::unix::fs::MetadataExt;
use std::rt::HostRuntime;

/// A file of the system, whatever it is named.
#[derive(Clone, Copy, PartialEq, Eq)]
struct Node {
    device: u64,
    number: u64,
}

/// The path of an inventory's file and that of its log, and the files that stood there when they were opened. Who removes,
/// renames or replaces one of them takes from the program what it writes.
#[derive(Drop)]
pub(crate) struct Place {
    rt: HostRuntime,
    path: String,
    log_path: String,
    file: Option<Node>,
    log: Option<Node>,
}

// The file that a path names now, if it names one.
fn node_at(rt: &HostRuntime, path: &str) -> Option<Node> {
    match fs::metadata(rt, path) {
        Ok(found) => Some(Node {
            device: found.dev(),
            number: found.ino(),
        }),
        Err(_) => None,
    }
}

impl Place {
    /// The files that stand at a path now.
    ///
    /// # Errors
    /// `Memory` if memory runs out.
    pub(crate) fn at(rt: &HostRuntime, path: &str) -> Result<Place, OpenFault>
        ensures { IfErr result (λ e. e ≡ OpenFault.Memory) }
    {
        let Ok(log_path) = format!(in rt.alloc(); "{path}-wal") else {
            return Err(OpenFault::Memory);
        };
        let Ok(path) = String::from_str(rt.alloc(), path) else {
            return Err(OpenFault::Memory);
        };
        let file = node_at(rt, path.as_str());
        let log = node_at(rt, log_path.as_str());
        Ok(Place {
            rt: *rt,
            path,
            log_path,
            file,
            log,
        })
    }

    /// Whether the same files stand there still.
    pub(crate) fn is_same(&self) -> bool {
        self.file.is_some()
            && node_at(&self.rt, self.path.as_str()) == self.file
            && node_at(&self.rt, self.log_path.as_str()) == self.log
    }
}
