//! The file of a report. It takes its place when it is whole, so that until then, and where a write
//! fails, what stood there stays.
use crate::same_file::{STDERR, STDOUT, are_same_file};
use std::fs::{
    File, Metadata, OpenOptions, canonicalize, metadata, remove_file, rename, symlink_metadata,
};
use std::io::{self, ErrorKind, Stderr, Stdout, Write};
use std::process;

/// So many names are tried for a file beside the place of a report.
const MOST_NAMES: u32 = 100;

/// Why a report isn't where it is due.
#[derive(Clone, Copy, Drop)]
pub enum Failure {
    /// Its file can't be created, for this reason.
    Created(ErrorKind),
    /// The name is a symbolic link to no file.
    LinkToNothing,
    /// It can't be written whole, for this reason.
    Written(ErrorKind),
}

// A new file beside the place of a report.
#[derive(Drop)]
struct Fresh {
    file: File,
    name: String,
    // The place that it takes.
    place: String,
}

// Where a report is written.
#[derive(Drop)]
enum Target {
    // To a file that takes its place at the end.
    Beside(Fresh),
    // To what isn't a file of bytes, as a device or a pipe.
    Direct(File),
    // Behind what is shown: the name is that of standard output.
    Shown(Stdout),
    // The name is that of standard error.
    Told(Stderr),
}

impl Write for Target {
    fn write(&mut self, buf: &[u8]) -> io::Result<usize> {
        match self {
            Target::Beside(fresh) => fresh.file.write(buf),
            Target::Direct(file) => file.write(buf),
            Target::Shown(output) => output.write(buf),
            Target::Told(errors) => errors.write(buf),
        }
    }

    fn flush(&mut self) -> io::Result<()> {
        match self {
            Target::Beside(fresh) => fresh.file.flush(),
            Target::Direct(file) => file.flush(),
            Target::Shown(output) => output.flush(),
            Target::Told(errors) => errors.flush(),
        }
    }
}

// A new file in the directory of a place, under a name that nothing has.
fn fresh_beside(rt: &HostRuntime, place: String) -> io::Result<Fresh> {
    let directory = match place.as_str().rsplit_once('/') {
        Some((directory, _)) => format!(in rt.alloc(); "{directory}/")?,
        None => String::new(rt.alloc()),
    };
    let id = process::id(rt.process());
    for number in 0..MOST_NAMES {
        let name = format!(in rt.alloc(); "{directory}.psat_ask-{id}-{number}")?;
        match File::create_new(rt, name.as_str()) {
            Ok(file) => return Ok(Fresh { file, name, place }),
            Err(error) if error.kind() == ErrorKind::AlreadyExists => {}
            Err(error) => return Err(error),
        }
    }
    Err(ErrorKind::AlreadyExists.into())
}

// What takes the place of a file, with its permissions. One that mustn't be written is left alone.
fn target_over(rt: &HostRuntime, name: &str, found: &Metadata) -> io::Result<Target> {
    let opened = OpenOptions::new().write(true).open(rt, name)?;
    if !found.is_file() {
        return Ok(Target::Direct(opened));
    }
    let place = canonicalize(rt, name)?;
    let fresh = fresh_beside(rt, String::from_str(rt.alloc(), place.as_str())?)?;
    match fresh.file.set_permissions(found.permissions()) {
        Ok(()) => Ok(Target::Beside(fresh)),
        Err(error) => {
            let _ = remove_file(rt, fresh.name.as_str());
            Err(error)
        }
    }
}

// What is written to under a name.
fn target_of(rt: &HostRuntime, name: &str) -> io::Result<Target> {
    if are_same_file(rt, name, STDOUT) {
        return Ok(Target::Shown(rt.stdout()));
    }
    if are_same_file(rt, name, STDERR) {
        return Ok(Target::Told(rt.stderr()));
    }
    match metadata(rt, name) {
        Ok(found) => target_over(rt, name, &found),
        Err(error) if error.kind() == ErrorKind::NotFound => {
            let place = String::from_str(rt.alloc(), name)?;
            Ok(Target::Beside(fresh_beside(rt, place)?))
        }
        Err(error) => Err(error),
    }
}

// Lets a file take its place, once the system keeps its bytes.
fn take_place(rt: &HostRuntime, fresh: &Fresh) -> io::Result<()> {
    fresh.file.sync_all()?;
    rename(rt, fresh.name.as_str(), fresh.place.as_str())
}

// Lets a file that was written whole take its place, and removes one that wasn't or can't.
fn end_fresh(rt: &HostRuntime, fresh: &Fresh, is_whole: bool) -> Result<(), Failure> {
    let taken = if is_whole {
        take_place(rt, fresh)
    } else {
        Ok(())
    };
    if !is_whole || taken.is_err() {
        let _ = remove_file(rt, fresh.name.as_str());
    }
    match taken {
        Ok(()) => Ok(()),
        Err(error) => Err(Failure::Written(error.kind())),
    }
}

// Whether a name is a symbolic link to no file.
fn is_link_to_nothing(rt: &HostRuntime, name: &str) -> bool {
    metadata(rt, name).is_err() && symlink_metadata(rt, name).is_ok()
}

/// A writer to a file of this name. Where nothing is written the file stays as it was.
#[derive(Drop)]
pub struct ReportFile<'a> {
    rt: &'a HostRuntime,
    name: &'a str,
    target: Option<Target>,
    failure: Option<Failure>,
}

impl<'a> ReportFile<'a> {
    /// To a file that nothing was written to.
    pub fn new(rt: &'a HostRuntime, name: &'a str) -> ReportFile<'a> {
        ReportFile {
            rt,
            name,
            target: None,
            failure: None,
        }
    }

    // What is written to, which is opened where it isn't yet.
    fn open(&mut self) -> io::Result<Target> {
        if let Some(target) = self.target.take() {
            return Ok(target);
        }
        if is_link_to_nothing(self.rt, self.name) {
            self.failure = Some(Failure::LinkToNothing);
            return Err(ErrorKind::NotFound.into());
        }
        match target_of(self.rt, self.name) {
            Ok(target) => Ok(target),
            Err(error) => {
                self.failure = Some(Failure::Created(error.kind()));
                Err(error)
            }
        }
    }

    /// Lets the file take its place, where the report was written whole. Where it wasn't, or the file
    /// can't take its place, what stood there stays.
    pub fn finish(self, is_whole: bool) -> Result<(), Failure> {
        if let Some(Target::Beside(fresh)) = &self.target {
            end_fresh(self.rt, fresh, is_whole)?;
        }
        if is_whole {
            return Ok(());
        }
        Err(
            self.failure
                .unwrap_or(Failure::Written(ErrorKind::WriteZero)),
        )
    }
}

impl<'a> Write for ReportFile<'a> {
    fn write(&mut self, buf: &[u8]) -> io::Result<usize> {
        let mut target = self.open()?;
        let written = target.write(buf);
        self.target = Some(target);
        if let Err(error) = &written {
            self.failure = Some(Failure::Written(error.kind()));
        }
        written
    }

    fn flush(&mut self) -> io::Result<()> {
        match &mut self.target {
            Some(target) => target.flush(),
            None => Ok(()),
        }
    }
}
