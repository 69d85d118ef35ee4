// Files in memory, which fail where they are told to.
ghost use Rattle.std.specs.Prelude.{◌≡◌, ◌≢◌, ◌≤◌, ◌<◌, ◌∷◌, ◌+◌, [], ◌⊎◌, false, true, Some, None, Err, IfErr, IfOk, OnErr, OnOk, map, option_map, string_bytes, vec_capacity, vec_len};
ghost use Rattle.flux_outside.specs.Memory.{MemFilesView, call_of, file_of, files_told, names, next_fails, wants_of};
ghost use Rattle.flux_outside.specs.Outside.{Explains, Finds, IsHeld, IsRead, IsReadOf, Joins, KeepsFront, LeavesOthers, OthersStay, Read, Save, after_call, is_counted};

use crate::{FileStop, Files, Got};
use std::alloc::Global;
use std::collections::BTreeMap;
use std::marker::Model;
use tuple_edge::OutOfMemory;

// A call that was made, with its name, and of a read the most bytes that it allowed.
#[derive(Drop)]
enum MemCall {
    Read { name: String, max: u64 },
    Save { name: String },
}

// How often a call has found no memory, and whether the last call did.
#[derive(Clone, Copy)]
struct MemWants {
    count: u64,
    last: bool,
}

impl MemWants {
    // The same after a call that found memory or not.
    fn after(self, found: bool) -> MemWants
        ensures { wants_of result ≡ after_call (wants_of self) found }
    {
        if found {
            return MemWants {
                count: self.count,
                last: false,
            };
        }
        MemWants {
            count: self.count.saturating_add(1),
            last: true,
        }
    }
}

/// Files in memory. The calls whose numbers are in a list fail: calls of `read` and `save` count together
/// from 1, without those that found no memory. To read a name that isn't there fails too.
#[derive(Drop)]
pub struct MemFiles {
    alloc: Global,
    files: BTreeMap<String, Vec<u8>>,
    fails: Vec<u64>,
    calls: Vec<MemCall>,
    wants: MemWants,
    read_faults: u64,
    save_faults: u64,
}

impl Model for MemFiles {
    ghost use Rattle.std.specs.Prelude.{map};
    ghost use Rattle.flux_outside.specs.Memory.{MemFilesView, call_of, file_of, wants_of};

    ghost Value = { MemFilesView };

    ghost view = { λ s. record {
      files = map file_of s.files.entries;
      fails = s.fails.items;
      calls = map call_of s.calls.items;
      wants = wants_of s.wants;
      read_faults = s.read_faults;
      save_faults = s.save_faults;
    } };
}

impl MemFiles {
    /// No files yet, and the numbers of the calls that will fail, from 1.
    pub fn new(alloc: Global, fails: Vec<u64>) -> MemFiles
        ensures { result ≡ record { files = []; fails = fails.items; calls = []; wants = record { count = 0; last = false }; read_faults = 0; save_faults = 0 } }
    {
        MemFiles {
            alloc,
            files: BTreeMap::new(alloc),
            fails,
            calls: Vec::new(alloc),
            wants: MemWants {
                count: 0,
                last: false,
            },
            read_faults: 0,
            save_faults: 0,
        }
    }

    /// Puts a file, in place of one of that name. It is no call that is counted.
    pub fn put_file(&mut self, name: &str, bytes: &[u8]) -> Result<(), OutOfMemory>
        ensures saved { OnOk result (names self.new.files name.now ≡ Some bytes.now) }
        ensures others { OthersStay (names self.old.files) (names self.new.files) name.now }
        ensures unchanged { OnErr result (self.new ≡ self.old) }
        ensures rest { self.new ≡ record self.old { files = self.new.files } }
    {
        insert_file(self.alloc, &mut self.files, name, bytes)
    }

    /// What a name holds. None exactly where there is no such file.
    pub fn file(&self, name: &str) -> Option<&[u8]>
        ensures { option_map (λ bytes. bytes.now) result ≡ names self.now.files name.now }
    {
        match self.files.get(name) {
            None => None,
            Some(bytes) => Some(bytes.as_slice()),
        }
    }

    // Whether the next call is to fail.
    fn next_fails(&self) -> bool
        ensures { result ≡ next_fails self.now }
    {
        self.fails.contains(&(self.calls.len() as u64 + 1))
    }

    // What a read of a name gives, and appends.
    fn look_up(&self, name: &str, max: u64, into: &mut Vec<u8>) -> Result<Got, FileStop>
        ensures got { IfOk result (λ got. IsRead (Some (names self.now.files)) name.now max got into.old.items into.new.items) }
        ensures front { KeepsFront into.old.items into.new.items }
        ensures few { vec_len into.new ≤ vec_len into.old + max }
        ensures fails { result ≡ Err FileStop.Failed → (next_fails self.now ≡ true) ⊎ (names self.now.files name.now ≡ None) }
        ensures failing { IfOk result (λ got. next_fails self.now ≡ false) }
    {
        if self.next_fails() {
            return Err(FileStop::Failed);
        }
        match self.file(name) {
            None => Err(FileStop::Failed),
            Some(bytes) => append_file(bytes, max, into),
        }
    }
}

// Makes room for one more call, and gives its name to keep.
fn kept_name(alloc: Global, calls: &mut Vec<MemCall>, name: &str) -> Result<String, OutOfMemory>
    ensures kept { IfOk result (λ kept. string_bytes kept ≡ name.now) }
    ensures room { OnOk result (vec_len calls.new < vec_capacity calls.new) }
    ensures unchanged { calls.new.items ≡ calls.old.items }
{
    calls.reserve(1)?;
    let kept = String::from_str(alloc, name)?;
    Ok(kept)
}

// Appends the bytes of a file, where they are not too many.
fn append_file(bytes: &[u8], max: u64, into: &mut Vec<u8>) -> Result<Got, FileStop>
    ensures got { IfOk result (λ got. IsReadOf bytes.now max got into.old.items into.new.items) }
    ensures front { KeepsFront into.old.items into.new.items }
    ensures few { vec_len into.new ≤ vec_len into.old + max }
    ensures memory { IfErr result (λ stop. stop ≡ FileStop.OutOfMemory) }
{
    if bytes.len() as u64 > max {
        return Ok(Got::TooLong { seen: max + 1 });
    }
    into.extend_from_slice(bytes)?;
    Ok(Got::Whole)
}

// Puts a file, in place of one of that name.
fn insert_file(
    alloc: Global,
    files: &mut BTreeMap<String, Vec<u8>>,
    name: &str,
    bytes: &[u8],
) -> Result<(), OutOfMemory>
    ensures saved { OnOk result (names (map file_of files.new.entries) name.now ≡ Some bytes.now) }
    ensures others { OthersStay (names (map file_of files.old.entries)) (names (map file_of files.new.entries)) name.now }
    ensures unchanged { OnErr result (files.new.entries ≡ files.old.entries) }
{
    let key = String::from_str(alloc, name)?;
    let value = Vec::from_slice(alloc, bytes)?;
    files.insert(key, value)?;
    Ok(())
}

impl Files for MemFiles {
    ghost told = { files_told };

    fn read(&mut self, name: &str, max: u64, into: &mut Vec<u8>) -> Result<Got, FileStop>
        ensures got { IfOk result (λ got. IsRead (Some (names self.old.files)) name.now max got into.old.items into.new.items) }
        ensures front { KeepsFront into.old.items into.new.items }
        ensures few { vec_len into.new ≤ vec_len into.old + max }
        ensures contents { Some (names self.new.files) ≡ Some (names self.old.files) }
        ensures called { Joins (Some self.old.calls) (Some self.new.calls) (Read name.now max) (is_counted result) }
        ensures found { Finds (Some self.old.wants) (Some self.new.wants) (is_counted result) }
        ensures cause { IfErr result (λ stop. Explains self.old.read_faults self.new.read_faults stop) }
        ensures still { result ≢ Err FileStop.Failed → self.new.read_faults ≡ self.old.read_faults }
        ensures later { self.old.read_faults ≤ self.new.read_faults }
        ensures saves { self.new.save_faults ≡ self.old.save_faults }

        // It fails exactly where the list of its calls says so, or there is no such file.
        ensures fails { result ≡ Err FileStop.Failed → (next_fails self.old ≡ true) ⊎ (names self.old.files name.now ≡ None) }
        ensures failing { IfOk result (λ got. next_fails self.old ≡ false) }
        ensures others { (self.new.files ≡ self.old.files) × (self.new.fails ≡ self.old.fails) }
    {
        let Ok(kept) = kept_name(self.alloc, &mut self.calls, name) else {
            self.wants = self.wants.after(false);
            return Err(FileStop::OutOfMemory);
        };
        match self.look_up(name, max, into) {
            Ok(got) => {
                self.calls.push_reserved(MemCall::Read { name: kept, max });
                self.wants = self.wants.after(true);
                Ok(got)
            }
            Err(FileStop::Failed) => {
                self.calls.push_reserved(MemCall::Read { name: kept, max });
                self.wants = self.wants.after(true);
                self.read_faults = self.read_faults.saturating_add(1);
                Err(FileStop::Failed)
            }
            Err(FileStop::OutOfMemory) => {
                self.wants = self.wants.after(false);
                Err(FileStop::OutOfMemory)
            }
        }
    }

    fn save(&mut self, name: &str, bytes: &[u8]) -> Result<(), FileStop>
        ensures saved { OnOk result (IsHeld (Some (names self.new.files)) name.now bytes.now) }
        ensures others { LeavesOthers (Some (names self.old.files)) (Some (names self.new.files)) name.now }
        ensures called { Joins (Some self.old.calls) (Some self.new.calls) (Save name.now) (is_counted result) }
        ensures found { Finds (Some self.old.wants) (Some self.new.wants) (is_counted result) }
        ensures cause { IfErr result (λ stop. Explains self.old.save_faults self.new.save_faults stop) }
        ensures still { result ≢ Err FileStop.Failed → self.new.save_faults ≡ self.old.save_faults }
        ensures later { self.old.save_faults ≤ self.new.save_faults }
        ensures reads { self.new.read_faults ≡ self.old.read_faults }

        // It fails exactly where the list of its calls says so, and then changes no file.
        ensures fails { result ≡ Err FileStop.Failed → next_fails self.old ≡ true }
        ensures failing { IfOk result (λ x. next_fails self.old ≡ false) }
        ensures unsaved { OnErr result (self.new.files ≡ self.old.files) }
        ensures list { self.new.fails ≡ self.old.fails }
    {
        let Ok(kept) = kept_name(self.alloc, &mut self.calls, name) else {
            self.wants = self.wants.after(false);
            return Err(FileStop::OutOfMemory);
        };
        if self.next_fails() {
            self.calls.push_reserved(MemCall::Save { name: kept });
            self.wants = self.wants.after(true);
            self.save_faults = self.save_faults.saturating_add(1);
            return Err(FileStop::Failed);
        }
        let Ok(()) = insert_file(self.alloc, &mut self.files, name, bytes) else {
            self.wants = self.wants.after(false);
            return Err(FileStop::OutOfMemory);
        };
        self.calls.push_reserved(MemCall::Save { name: kept });
        self.wants = self.wants.after(true);
        Ok(())
    }
}
