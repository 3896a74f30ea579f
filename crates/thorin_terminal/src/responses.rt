//! Response files of the system.

use std::cell::Cell;
use std::{io, str};
use thorin_words::{ResponseError, ResponseFiles};

/// A response file whose words can't be told.
#[derive(Drop)]
pub struct RefusedResponse {
    /// Its name.
    pub name: String,
    /// Why it couldn't be read; none where it isn't UTF-8.
    pub cause: Option<io::Error>,
}

/// Response files, of which is known what notes say.
pub trait NotedResponses: ResponseFiles {
    /// The file that couldn't be read, or the last that was read and isn't UTF-8, as far as there
    /// was memory to keep its name. Asked for once.
    fn refused(&self) -> Option<RefusedResponse>;
}

/// The files of the system. What has no end, as a device, isn't read.
#[derive(Drop)]
pub struct HostResponses<'r> {
    rt: &'r HostRuntime,
    refused: Cell<Option<RefusedResponse>>,
}

impl<'r> HostResponses<'r> {
    /// The files of this runtime.
    pub fn new(rt: &'r HostRuntime) -> HostResponses<'r> {
        HostResponses {
            rt,
            refused: Cell::new(None),
        }
    }

    /// Keeps what is known of a file.
    fn keep(&self, name: &str, cause: Option<io::Error>) {
        if let Ok(name) = String::from_str(self.rt.alloc(), name) {
            self.refused.set(Some(RefusedResponse { name, cause }));
        }
    }
}

impl ResponseFiles for HostResponses<'_> {
    ghost offer = { λ _ _ _. Unit {0} };

    ghost fails = { λ _ _ _. Unit {0} };

    fn text(&self, name: &str, most: u32) -> Result<Option<Vec<u8>>, ResponseError> {
        let rt = self.rt;
        if !thorin_files::is_there(rt, name) {
            return Ok(None);
        }
        match thorin_files::read_within(rt, name, most) {
            Ok(Some(bytes)) => {
                if str::from_utf8(bytes.as_slice()).is_err() {
                    self.keep(name, None);
                }
                Ok(Some(bytes))
            }
            Ok(None) => Err(ResponseError::TooLong),
            Err(cause) => {
                let is_memory = cause.kind() == io::ErrorKind::OutOfMemory;
                self.keep(name, Some(cause));
                Err(if is_memory {
                    ResponseError::Memory
                } else {
                    ResponseError::Unreadable
                })
            }
        }
    }
}

impl NotedResponses for HostResponses<'_> {
    fn refused(&self) -> Option<RefusedResponse> {
        self.refused.replace(None)
    }
}
