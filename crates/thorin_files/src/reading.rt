//! Reading files.

ghost use Rattle.std.specs.Prelude.{◌≡◌, ◌≤◌, length, take, IfOk, OnOk, IfSome};
ghost use Rattle.std.specs.Io.KnownBytes.{Consumes};

use std::fs::{self, File};
use std::io::{self, ErrorKind, Read};
use std::os::unix::fs::{FileTypeExt, MetadataExt};
use std::path::{AsPath, Path};

/// How much room is made at least for files that are read one after another: 16 MiB. Most objects
/// fit, and new room costs the system a fault for each page that it touches for the first time.
const ROOM: usize = 0x100_0000;

/// By how many bytes it is lengthened at a time.
const PIECE: usize = 1024;

/// Reads a file whole, into room of its length where the system tells the length, so that it is
/// held once. Errors: that of the read that failed, want of memory by its kind; `Unsupported` for a
/// device.
pub fn read(rt: &HostRuntime, path: &str) -> io::Result<Vec<u8>> {
    let mut bytes = Vec::new(rt.alloc());
    read_over(rt, Path::new(path), &mut bytes)?;
    Ok(bytes)
}

/// Reads a file whole into room that other files were read into before. Errors: as those of `read`.
pub fn read_over(rt: &HostRuntime, path: Path<'_>, room: &mut Vec<u8>) -> io::Result<()> {
    let (mut file, len) = opened(rt, path, false)?;
    read_whole(&mut file, len, room)
}

/// Reads a regular file into such room. One whose length is told as 0 has no bytes and isn't read:
/// a read of it may wait for ever, as that of a file of `/proc`. Errors: as those of `read`;
/// `Unsupported` also for a pipe, a socket and a directory.
pub fn read_regular_over(rt: &HostRuntime, path: Path<'_>, room: &mut Vec<u8>) -> io::Result<()> {
    let (mut file, len) = opened(rt, path, true)?;
    room.truncate(0);
    if len > 0 {
        read_whole(&mut file, len, room)?;
    }
    Ok(())
}

/// Tries whether a regular file can be read: a byte of it is, where it has one. Errors: as those of
/// `read_regular_over`.
pub fn try_regular(rt: &HostRuntime, path: Path<'_>) -> io::Result<()> {
    let (mut file, len) = opened(rt, path, true)?;
    if len > 0 {
        let mut byte = [0];
        read_once(&mut file, &mut byte)?;
    }
    Ok(())
}

/// Reads a file whole that has at most `limit` bytes, whatever length the system tells; none where
/// it has more. No more than one byte past the limit is read. Errors: as those of `read`.
pub fn read_within(rt: &HostRuntime, path: &str, limit: u32) -> io::Result<Option<Vec<u8>>>
    ensures { IfOk result (λ read. IfSome read (λ bytes. length bytes.items ≤ limit)) }
{
    let most = u64::from(limit);
    let mut bytes = Vec::new(rt.alloc());
    let (file, len) = opened(rt, Path::new(path), false)?;
    let mut front = file.take(most + 1);
    read_whole(&mut front, len.min(most), &mut bytes)?;
    if bytes.len() as u64 <= most {
        Ok(Some(bytes))
    } else {
        Ok(None)
    }
}

/// Whether there is a regular file at a path.
pub fn is_file(rt: &HostRuntime, path: &str) -> bool {
    fs::metadata(rt, path).is_ok_and(|metadata| metadata.is_file())
}

/// Whether there is anything at a path.
pub fn is_there(rt: &HostRuntime, path: &str) -> bool {
    fs::metadata(rt, path).is_ok()
}

/// The device and the number of the file at a path, by which two names of one file are known. None
/// where there is no file.
pub fn identity(rt: &HostRuntime, path: &str) -> Option<(u64, u64)> {
    let metadata = fs::metadata(rt, path).ok()?;
    Some((metadata.dev(), metadata.ino()))
}

/// Opens the file at a path, and tells how long it is said to be: 0 where the system tells nothing.
/// A device is refused before it is opened, and all but a regular file where one is asked for.
fn opened(rt: &HostRuntime, path: Path<'_>, only_regular: bool) -> io::Result<(File, u64)> {
    let mut len = 0;
    if let Ok(metadata) = fs::metadata(rt, path) {
        let kind = metadata.file_type();
        let is_refused = only_regular && !kind.is_file();
        if is_refused || kind.is_char_device() || kind.is_block_device() {
            return Err(io::Error::from(ErrorKind::Unsupported));
        }
        len = metadata.len();
    }
    Ok((File::open(rt, path)?, len))
}

/// Reads all that is left, which is about `len` bytes, into room that is made once: a byte more
/// than `len` lets the read that finds the end have room. The first read takes all that it gets.
/// New room has a quarter more and at least `ROOM` bytes, where there is memory: so the next larger
/// file mostly fits too. What of it no file fills takes none of the machine's memory.
fn read_whole<F: Read>(file: &mut F, len: u64, room: &mut Vec<u8>) -> io::Result<()>
    ensures { OnOk result (IfSome (F.remaining file.old) (λ all. room.new.items ≡ all)) }
{
    let needed = (len as usize).saturating_add(1);
    if room.capacity() < needed {
        *room = Vec::new(*room.allocator());
        let roomy = needed.saturating_add(needed / 4).max(ROOM);
        if room.reserve_exact(roomy).is_err() {
            room.reserve_exact(needed)?;
        }
    }
    // More zeros at a time are set byte by byte on some processors.
    let zeros = [0; PIECE];
    while room.len() < needed {
        let count = PIECE.min(needed - room.len());
        room.extend_from_slice(&zeros[..count])?;
    }
    let front = read_once(file, room)?;
    room.truncate(front);
    file.read_to_end(room)?;
    Ok(())
}

/// One read over what a buffer holds; how many bytes it read, none where it was interrupted.
fn read_once<F: Read>(file: &mut F, buffer: &mut [u8]) -> io::Result<usize>
    ensures within { IfOk result (λ n. n ≤ length buffer.new) }
    ensures bytes { IfOk result (λ n. Consumes (F.remaining file.old) (F.remaining file.new)
        (take n buffer.new)) }
{
    match file.read(buffer) {
        Err(e) if e.kind() == ErrorKind::Interrupted => Ok(0),
        answer => answer,
    }
}
