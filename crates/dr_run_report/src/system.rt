//! The system's files, as they are asked before a report is written.
use crate::asking::Paths;
use crate::head::begins_as_report;
use crate::judging::{FileId, PathTarget, ReportPlace, Spot};
use dr_base::Text;
use std::alloc::Global;
use std::fs::Metadata;
use std::io::{ErrorKind, Read};
use std::os::unix::fs::MetadataExt;
use std::path::Path;
use std::{fs, io};

/// The files of the system.
#[derive(Drop)]
pub struct SystemPaths<'a>(&'a HostRuntime);

/// What makes a file another one than any other.
fn id_of(metadata: &Metadata) -> FileId {
    FileId {
        device: metadata.dev(),
        inode: metadata.ino(),
    }
}

/// Whether a look-up says that nothing is there.
fn is_absent(error: &io::Error) -> bool {
    matches!(error.kind(), ErrorKind::NotFound | ErrorKind::NotADirectory)
}

impl<'a> SystemPaths<'a> {
    /// The files that the program may look at.
    pub fn new(rt: &'a HostRuntime) -> SystemPaths<'a> {
        SystemPaths(rt)
    }

    /// Whether the plain file at the path begins as a report does.
    fn is_report(&self, path: &str) -> io::Result<bool> {
        let mut file = fs::open(self.0, path)?;
        let (mut head, mut count) = ([0u8; 5], 0usize);
        for _ in 0..5 {
            let read = file.read(&mut head[count..])?;
            count += read;
        }
        Ok(begins_as_report(&head[..count]))
    }

    /// What a path leads to where no file is: nothing, or a link to nothing.
    fn unfound(&self, path: &str) -> io::Result<PathTarget> {
        match fs::symlink_metadata(self.0, path) {
            Ok(link) => Ok(PathTarget::Other(id_of(&link))),
            Err(error) if is_absent(&error) => Ok(PathTarget::Nothing),
            Err(error) => Err(error),
        }
    }

    /// What the path leads to.
    fn find(&self, path: &str) -> io::Result<PathTarget> {
        let metadata = match fs::metadata(self.0, path) {
            Ok(metadata) => metadata,
            Err(error) if is_absent(&error) => return self.unfound(path),
            Err(error) => return Err(error),
        };
        let id = id_of(&metadata);
        if metadata.is_file() && self.is_report(path)? {
            return Ok(PathTarget::Report(id));
        }
        Ok(PathTarget::Other(id))
    }

    /// Where the path stands.
    fn spot(&self, alloc: Global, path: &str) -> io::Result<Spot> {
        let path = Path::new(path);
        let Some(name) = path.file_name() else {
            return Err(io::Error::from(ErrorKind::InvalidInput));
        };
        let parent = match path.parent() {
            Some(parent) if parent.as_str() != "" => parent.as_str(),
            _ => ".",
        };
        let folder = fs::canonicalize(self.0, parent)?;
        Ok(Spot {
            folder: Text::copy_of(alloc, folder.as_str().as_bytes())?,
            name: Text::copy_of(alloc, name.as_bytes())?,
        })
    }
}

impl<'a> Paths for SystemPaths<'a> {
    fn place(&self, alloc: Global, path: &str) -> io::Result<ReportPlace> {
        let spot = self.spot(alloc, path)?;
        let found = self.find(path)?;
        Ok(ReportPlace { spot, found })
    }

    fn real_path(&self, alloc: Global, path: &str) -> io::Result<Option<String>> {
        match fs::canonicalize(self.0, path) {
            Ok(real) => {
                let mut whole = String::new(alloc);
                whole.push_str(real.as_str())?;
                Ok(Some(whole))
            }
            Err(error) if is_absent(&error) => Ok(None),
            Err(error) => Err(error),
        }
    }

    fn file_id(&self, path: &str) -> io::Result<Option<FileId>> {
        match fs::metadata(self.0, path) {
            Ok(metadata) => Ok(Some(id_of(&metadata))),
            Err(error) if is_absent(&error) => Ok(None),
            Err(error) => Err(error),
        }
    }
}
