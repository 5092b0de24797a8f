//! Where the files come from that the words name.
ghost use Rattle.std.specs.Prelude.{◌≡◌, ℕ, List, Result, string_bytes};
ghost use Rattle.std.specs.Result.{result_map_both};
ghost use Rattle.ion_meter.specs.Devices.{Counted};

use ion_meter::device::Input;
use ion_meter::stream::FromRead;
use std::io::Read;
use std::marker::Model;

/// A file after its run, with how often a read of it failed.
///
/// Only a device makes one, so that no call sets the count.
#[derive(Drop)]
pub struct UsedFile<F> {
    file: F,
    failures: u64,
}

impl<F> Model for UsedFile<F> {
    ghost use Rattle.ion_meter.specs.Devices.{Counted};

    ghost Value = { Counted F };

    ghost view = { λ used. record { inner = used.file; failures = used.failures } };
}

impl<F: Read> UsedFile<F> {
    /// The file of this device, with its count of failures.
    pub fn from_device(device: FromRead<F>) -> UsedFile<F>
        ensures { result ≡ device }
    {
        let failures = device.failures();
        UsedFile {
            file: device.into_inner(),
            failures,
        }
    }
}

/// Where the files come from that the words name.
pub trait FileSource {
    type File: Read + Drop;

    /// It may give this for a name, a file or why there is none, and be so then.
    ghost gives: { Self → List ℕ → Result Self.File (List ℕ) → Self → Type 0 };

    /// It may be so when this file is handed back to it.
    ghost closes: { Self → Counted Self.File → Self → Type 0 };

    /// The file of this name, where it can be read, or why it cannot, which may be an empty text.
    fn open_named(&mut self, name: &str) -> Result<Self::File, String>
        ensures { gives self.old name.now
            (result_map_both (λ file. file) string_bytes result) self.new };

    /// Takes back a file that it gave, as the run leaves it.
    fn close(&mut self, file: UsedFile<Self::File>)
        ensures { closes self.old file self.new };
}
