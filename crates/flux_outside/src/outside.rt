// What the program is handed in of the outside: files by name, and sinks of bytes.
//
// What an object holds or has taken is told where it can be known, as in memory. Its count of faults is
// always there: it never falls, and a call may answer a fault only where the count rose.
ghost use Rattle.std.specs.Prelude.{◌≡◌, ◌≢◌, ◌≤◌, ◌<◌, ◌+◌, Err, length, take, IfErr, IfOk, OnErr, OnOk, vec_len};
ghost use Rattle.flux_outside.specs.declared.outside.FileStop.TheVariants.{OutOfMemory};
ghost use Rattle.flux_outside.specs.Outside.{Explains, Finds, IsHeld, IsOffered, IsRead, Joins, KeepsFront, LeavesOthers, Read, Rose, Save, Takes, TakesPart, is_counted};
ghost use Rattle.flux_outside.specs.Told.{FilesTold, SinkTold};

use std::alloc::AllocError;

/// How a read of a file ended.
#[derive(Clone, Copy, Debug, PartialEq, Eq)]
pub enum Got {
    /// The whole file was appended.
    Whole,
    /// The file has more than the `max` bytes that were allowed; `seen` is `max` + 1.
    TooLong { seen: u64 },
}

/// Why a file was not read or saved.
#[derive(Clone, Copy, Debug, PartialEq, Eq)]
pub enum FileStop {
    /// The outside failed, and the count of faults rose.
    Failed,
    /// No memory was to be had.
    OutOfMemory,
}

impl From<AllocError> for FileStop {
    ghost from_gives = { λ _ stop. stop ≡ OutOfMemory };

    fn from(_error: AllocError) -> FileStop {
        FileStop::OutOfMemory
    }
}

/// A sink took no more, and its count of faults rose.
#[derive(Clone, Copy, Debug, PartialEq, Eq)]
pub struct Failed;

/// Files by name.
pub trait Files {
    /// What the files tell.
    ghost told: { Self → FilesTold };

    /// Appends a file of at most `max` bytes. After a refusal or `TooLong` the appended bytes are of no
    /// meaning. Whatever the answer, what was in `into` before is unchanged, and at most `max` bytes are appended.
    fn read(&mut self, name: &str, max: u64, into: &mut Vec<u8>) -> Result<Got, FileStop>
        ensures got { IfOk result (λ got. IsRead (told self.old).contents name.now max got into.old.items into.new.items) }
        ensures front { KeepsFront into.old.items into.new.items }
        ensures few { vec_len into.new ≤ vec_len into.old + max }
        ensures contents { (told self.new).contents ≡ (told self.old).contents }
        ensures called { Joins (told self.old).calls (told self.new).calls (Read name.now max) (is_counted result) }
        ensures found { Finds (told self.old).wants (told self.new).wants (is_counted result) }
        ensures cause { IfErr result (λ stop. Explains (told self.old).read_faults (told self.new).read_faults stop) }
        ensures still { result ≢ Err FileStop.Failed → (told self.new).read_faults ≡ (told self.old).read_faults }
        ensures later { (told self.old).read_faults ≤ (told self.new).read_faults }
        ensures saves { (told self.new).save_faults ≡ (told self.old).save_faults };

    /// Replaces a file, and leaves the others. After a refusal the content of the file is not known.
    fn save(&mut self, name: &str, bytes: &[u8]) -> Result<(), FileStop>
        ensures saved { OnOk result (IsHeld (told self.new).contents name.now bytes.now) }
        ensures others { LeavesOthers (told self.old).contents (told self.new).contents name.now }
        ensures called { Joins (told self.old).calls (told self.new).calls (Save name.now) (is_counted result) }
        ensures found { Finds (told self.old).wants (told self.new).wants (is_counted result) }
        ensures cause { IfErr result (λ stop. Explains (told self.old).save_faults (told self.new).save_faults stop) }
        ensures still { result ≢ Err FileStop.Failed → (told self.new).save_faults ≡ (told self.old).save_faults }
        ensures later { (told self.old).save_faults ≤ (told self.new).save_faults }
        ensures reads { (told self.new).read_faults ≡ (told self.old).read_faults };
}

/// A sink of bytes.
pub trait Sink {
    /// What the sink tells.
    ghost told: { Self → SinkTold };

    /// Takes bytes from the front of the piece, and says how many. To take none is a fault. A put that
    /// fails has taken a proper prefix, which may be empty.
    fn put(&mut self, bytes: &[u8]) -> Result<usize, Failed>
        requires { 0 < length bytes.now }
        ensures given { IsOffered (told self.old).offered (told self.new).offered bytes.now }
        ensures within { IfOk result (λ count. count ≤ length bytes.now) }
        ensures ok { IfOk result (λ count. Takes (told self.old).taken (told self.new).taken (take count bytes.now)) }
        ensures failed { OnErr result (TakesPart (told self.old).taken (told self.new).taken bytes.now) }
        ensures none { IfOk result (λ count. count ≡ 0 → Rose (told self.old).faults (told self.new).faults) }
        ensures cause { OnErr result (Rose (told self.old).faults (told self.new).faults) }
        ensures later { (told self.old).faults ≤ (told self.new).faults };
}
