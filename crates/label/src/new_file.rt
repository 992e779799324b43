//! A file that takes its name only when it is whole, and never the place of one that the program did not make.
use crate::failure::{Failure, named};
use std::alloc::Global;
use std::fs::File;
use std::io::{BufWriter, ErrorKind, Read, Write};
use std::{fs, io};

/// How each picture by this program begins: only a file that does is ever replaced.
pub(crate) const MARK: &str = "<!-- A picture by label of Vumeskar -->\n";

const MARK_LENGTH: u64 = 40;

/// A file that is written under another name beside its own, and renamed when it is whole.
#[derive(Drop)]
pub(crate) struct NewFile {
    path: String,
    part: String,
}

impl NewFile {
    /// Begins a file of this name. It is refused where something is there that does not begin as `MARK` says, and where an earlier run left its part.
    pub(crate) fn begin(
        rt: &HostRuntime,
        path: &str,
    ) -> Result<(NewFile, BufWriter<File>), Failure> {
        let heap = rt.alloc();
        if !named(heap, path, may_take(rt, path))? {
            return Err(Failure::NotOurs(String::from_str(heap, path)?));
        }
        let new = NewFile {
            path: String::from_str(heap, path)?,
            part: format!(in heap; "{path}.part")?,
        };
        let part = new.part.as_str();
        match File::create_new(rt, part) {
            Err(e) if e.kind() == ErrorKind::AlreadyExists => {
                Err(Failure::PartThere(String::from_str(heap, part)?))
            }
            created => {
                let file = named(heap, part, created)?;
                Ok((new, BufWriter::new(heap, file)?))
            }
        }
    }

    /// Gives the file its name, which an earlier picture loses then.
    pub(crate) fn keep(self, rt: &HostRuntime, file: BufWriter<File>) -> Result<(), Failure> {
        let path = self.path.as_str();
        match self.take_name(rt, file) {
            Ok(()) => Ok(()),
            Err(e) => {
                let outcome = named(rt.alloc(), path, Err(e));
                self.give_up(rt);
                outcome
            }
        }
    }

    // All of it is on the disk before it has the name.
    fn take_name(&self, rt: &HostRuntime, mut file: BufWriter<File>) -> io::Result<()> {
        file.flush()?;
        file.get_ref().sync_all()?;
        fs::rename(rt, self.part.as_str(), self.path.as_str())
    }

    /// Removes what was written; what is there under the name stays.
    pub(crate) fn give_up(self, rt: &HostRuntime) {
        let _ = fs::remove_file(rt, self.part.as_str());
    }
}

// Whether nothing is there, or a picture by this program. A link is none, whatever it leads to.
fn may_take(rt: &HostRuntime, path: &str) -> io::Result<bool> {
    match fs::symlink_metadata(rt, path) {
        Err(e) if e.kind() == ErrorKind::NotFound => Ok(true),
        Err(e) => Err(e),
        Ok(there) => Ok(there.is_file() && begins_as_ours(rt, path)?),
    }
}

fn begins_as_ours(rt: &HostRuntime, path: &str) -> io::Result<bool> {
    let mut front: Vec<u8, Global> = Vec::new(rt.alloc());
    let file = fs::open(rt, path)?;
    let _ = file.take(MARK_LENGTH).read_to_end(&mut front)?;
    Ok(front.as_slice() == MARK.as_bytes())
}
