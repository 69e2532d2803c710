//! Writing a text to a file, so that what stood there is lost only once the new text is whole.

ghost use Rattle.std.specs.Prelude.{◌≡◌};
ghost use Rattle.pp_judge.specs.Answers.{seen};
ghost use Rattle.pp_cli.specs.Faults.{IsKeptAt};

use crate::fault::unwritten;
use pp_judge::Exit;
use pp_run_command::write_journal;
use std::fs::{File, Metadata, OpenOptions};
use std::rt::Files;
use std::{fs, io};

/// Writes the text to the file at the path: to a second name, the path with `.part` behind it, which is renamed once all of
/// it is written. Where that fails, what stood at the path stays. A file that is no plain one, as a terminal, is written as it
/// stands.
pub fn keep<'a, R: Files<File = File> + AllocGlobal>(rt: &R, path: &'a str, text: &str) -> Exit<'a>
    ensures { IsKeptAt path.entry.now (seen result) }
{
    let written = match fs::metadata(rt, path) {
        Ok(found) if !found.is_file() => write_over(rt, path, text),
        Ok(found) => write_in_place_of(rt, path, &found, text),
        Err(_) => write_renamed(rt, path, None, text),
    };
    match written {
        Ok(()) => Exit::Kept,
        Err(error) => unwritten(path, &error),
    }
}

/// Writes the text to what stands at the path.
fn write_over<R: Files<File = File>>(rt: &R, path: &str, text: &str) -> io::Result<()> {
    let mut file = OpenOptions::new().write(true).open(rt, path)?;
    write_journal(&mut file, text)
}

/// Writes the text to a new file in place of the one at the path, or of that which a link at the path leads to.
fn write_in_place_of<R: Files<File = File> + AllocGlobal>(
    rt: &R,
    path: &str,
    found: &Metadata,
    text: &str,
) -> io::Result<()> {
    let target = fs::canonicalize(rt, path)?;
    write_renamed(rt, target.as_str(), Some(found), text)
}

/// Writes the text to a second name, and renames that to the path.
fn write_renamed<R: Files<File = File> + AllocGlobal>(
    rt: &R,
    path: &str,
    found: Option<&Metadata>,
    text: &str,
) -> io::Result<()> {
    let part = format!(in rt.alloc(); "{path}.part")?;
    let mut file = File::create_new(rt, part.as_str())?;
    let written = write_new(&mut file, found, text);
    let renamed = match written {
        Ok(()) => fs::rename(rt, part.as_str(), path),
        Err(error) => Err(error),
    };
    if renamed.is_err() {
        let _ = fs::remove_file(rt, part.as_str());
    }
    renamed
}

/// Writes the text to the new file, which may be read and written as the one before it.
fn write_new(file: &mut File, found: Option<&Metadata>, text: &str) -> io::Result<()> {
    if let Some(found) = found {
        file.set_permissions(found.permissions())?;
    }
    write_journal(file, text)
}
