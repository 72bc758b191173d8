//! The words and the files of the system.
use dr_run_files::Files;
use std::alloc::Global;
use std::{env, fs, io};

/// The files of the system.
#[derive(Drop)]
pub struct Disk<'a>(&'a HostRuntime);

impl<'a> Disk<'a> {
    /// The files that the program may open.
    pub fn new(rt: &'a HostRuntime) -> Disk<'a> {
        Disk(rt)
    }
}

/// What a file of the system holds isn't known to contracts.
impl<'a> Files for Disk<'a> {
    ghost holds = { λ disk path bytes. Unit {0} };

    fn read(&self, _alloc: Global, path: &str) -> io::Result<Vec<u8>> {
        fs::read(self.0, path)
    }

    /// The text is written to a file beside it, which then takes its name.
    fn replace(&self, alloc: Global, path: &str, text: &[u8]) -> io::Result<()> {
        let mut beside = String::new(alloc);
        beside.push_str(path)?;
        beside.push_str(".new")?;
        fs::write(self.0, beside.as_str(), text)?;
        fs::rename(self.0, beside.as_str(), path)
    }
}

/// The words that the program was given, without its own name.
///
/// Errors: one that isn't UTF-8; want of memory.
pub fn given_words(rt: &HostRuntime) -> io::Result<Vec<String>> {
    let mut words = Vec::new(rt.alloc());
    for word in env::args(rt)?.skip(1) {
        words.push(word)?;
    }
    Ok(words)
}
