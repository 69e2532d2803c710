//! Looking at a device before a run, and warning where it isn't one of these settings.

ghost use Rattle.std.specs.Prelude.{◌≡◌, IfOk, string_bytes};
ghost use Rattle.pp_cli.specs.Warnings.{bytes_of, head_line, length_line, other_length_line, warning_text};

use pp_judge::DeviceSize;
use pp_shown::ShownPath;
use std::alloc::{AllocError, Global};
use std::fs::File;
use std::os::unix::fs::FileExt;

/// What was found in the file of a device.
#[derive(Clone, Copy, Debug, PartialEq, Eq)]
pub struct Look {
    /// How many bytes it has, where it has a length.
    pub bytes: Option<u64>,
    /// The number that the head of the first page names, where that can be read.
    pub first: Option<u32>,
    /// The number that the head of the last page names, where that is another one and can be read.
    pub last: Option<u32>,
}

impl Look {
    /// Looks at the file of a device that is to be of this size.
    pub fn at(file: &File, size: DeviceSize) -> Look {
        Look {
            bytes: length_of(file),
            first: number_at(file, 0),
            last: last_number(file, size),
        }
    }
}

/// How many bytes a plain file has.
fn length_of(file: &File) -> Option<u64> {
    match file.metadata() {
        Ok(found) if found.is_file() => Some(found.len()),
        _ => None,
    }
}

/// The number that the head of the last page names, where that isn't the first one too.
fn last_number(file: &File, size: DeviceSize) -> Option<u32> {
    let last = size.pages.saturating_sub(1);
    if last == 0 {
        return None;
    }
    number_at(file, u64::from(last) * u64::from(size.page_bytes))
}

/// The number of the page in the head at this place of the file.
fn number_at(file: &File, place: u64) -> Option<u32> {
    let mut number = [0; 4];
    match file.read_exact_at(&mut number, place) {
        Ok(()) => Some(u32::from_be_bytes(number)),
        Err(_) => None,
    }
}

/// The warnings where what was found in the device isn't of this size, a line each.
///
/// # Errors
///
/// Only where memory runs out.
pub fn warnings(
    alloc: Global,
    device: &str,
    size: DeviceSize,
    look: Look,
) -> Result<String, AllocError>
    ensures { IfOk result (λ text. string_bytes text ≡ warning_text device.now size look) }
{
    let length = length_line(alloc, device, size, look.bytes)?;
    let first = head_line(alloc, device, 0, look.first)?;
    let last = head_line(alloc, device, size.pages.saturating_sub(1), look.last)?;
    Ok(format!(in alloc; "{length}{first}{last}")?)
}

/// How many bytes a device of this size has.
fn bytes_of(size: DeviceSize) -> u64
    ensures { result ≡ bytes_of size }
{
    u64::from(size.pages) * u64::from(size.page_bytes)
}

/// The warning of a device with so many bytes, where that is another length.
fn length_line(
    alloc: Global,
    device: &str,
    size: DeviceSize,
    bytes: Option<u64>,
) -> Result<String, AllocError>
    ensures { IfOk result (λ text. string_bytes text ≡ length_line device.now size bytes) }
{
    let Some(bytes) = bytes else {
        return Ok(String::new(alloc));
    };
    if bytes == bytes_of(size) {
        return Ok(String::new(alloc));
    }
    other_length_line(alloc, device, size, bytes)
}

/// The warning of a device with so many bytes.
fn other_length_line(
    alloc: Global,
    device: &str,
    size: DeviceSize,
    bytes: u64,
) -> Result<String, AllocError>
    ensures { IfOk result (λ text. string_bytes text ≡ other_length_line device.now size bytes) }
{
    let device = ShownPath(device);
    let wanted = bytes_of(size);
    let DeviceSize { pages, page_bytes } = size;
    Ok(format!(in alloc;
        "warning: {device} has {bytes} bytes, and {pages} pages of {page_bytes} bytes are {wanted}\n"
    )?)
}

/// The warning of a head that names this number, where the page's is another.
fn head_line(
    alloc: Global,
    device: &str,
    page: u32,
    number: Option<u32>,
) -> Result<String, AllocError>
    ensures { IfOk result (λ text. string_bytes text ≡ head_line device.now page number) }
{
    let Some(number) = number else {
        return Ok(String::new(alloc));
    };
    if number == page {
        return Ok(String::new(alloc));
    }
    let device = ShownPath(device);
    Ok(format!(in alloc;
        "warning: {device} has page {number} where page {page} of these settings is\n"
    )?)
}
