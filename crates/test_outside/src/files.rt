// The files and sinks themselves: in memory, and the system's.
use flux_outside::{Failed, FileStop, Files, Got, MemFiles, Sink, StdFiles, StdSink};
use std::alloc::{AllocError, Global};
use std::io::{self, PipeWriter, Read, Write};
use std::os::fd::AsRawFd;
use std::test::Fail;
use std::{fs, thread};

// Saves a file, and reads it whole, cut short and under another name.
fn saves_and_reads<F: Files>(alloc: Global, files: &mut F) -> Result<[bool; 5], Fail> {
    let saved = files.save("kept.txt", b"five\n") == Ok(());
    let mut whole = Vec::new(alloc);
    whole.extend_from_slice(b"> ")?;
    let got = files.read("kept.txt", 5, &mut whole) == Ok(Got::Whole);
    let mut cut = Vec::new(alloc);
    let seen = files.read("kept.txt", 4, &mut cut) == Ok(Got::TooLong { seen: 5 });
    let missing = files.read("none.txt", 5, &mut cut) == Err(FileStop::Failed);
    Ok([
        saved,
        got,
        whole.as_slice() == b"> five\n".as_slice(),
        seen,
        missing,
    ])
}

#[test]
fn files_hold_what_was_saved(rt: HostRuntime) -> Result<(), Fail> {
    let alloc = rt.alloc();
    let mut files = MemFiles::new(alloc, Vec::new(alloc));
    assert_eq!(rt; saves_and_reads(alloc, &mut files)?, [true; 5]);
    assert_eq!(rt; files.file("kept.txt"), Some(b"five\n".as_slice()));
    let mut files = StdFiles::new(&rt, alloc);
    assert_eq!(rt; saves_and_reads(alloc, &mut files)?, [true; 5]);
    Ok(())
}

// A file of as many bytes as trades may have is read whole, however many buffers that takes, and to its last byte where
// that is the most that is allowed.
#[test]
fn a_large_file_is_read_whole(rt: HostRuntime) -> Result<(), Fail> {
    let alloc = rt.alloc();
    let mut bytes = Vec::with_capacity(alloc, 16_777_216)?;
    for place in 0..16_777_216u32 {
        bytes.push((place % 251) as u8)?;
    }
    let mut files = StdFiles::new(&rt, alloc);
    assert_eq!(rt; files.save("large.bin", &bytes), Ok(()));
    let mut whole = Vec::new(alloc);
    assert_eq!(rt;
        files.read("large.bin", 16_777_216, &mut whole),
        Ok(Got::Whole)
    );
    assert!(rt; whole.as_slice() == bytes.as_slice());
    let mut cut = Vec::new(alloc);
    assert_eq!(rt;
        files.read("large.bin", 16_777_215, &mut cut),
        Ok(Got::TooLong { seen: 16_777_216 })
    );
    Ok(())
}

// Writes 280,000 bytes in small pieces, and then closes the pipe.
fn write_pieces(mut writer: PipeWriter) -> bool {
    let piece = [b'x'; 700];
    for _piece in 0..400 {
        if writer.write_all(&piece).is_err() {
            return false;
        }
    }
    true
}

// A pipe is read to its end, however small the pieces are that come through it.
#[test]
fn a_pipe_is_read_whole(rt: HostRuntime) -> Result<(), Fail> {
    let alloc = rt.alloc();
    let (reader, writer) = io::pipe(&rt)?;
    let descriptor = reader.as_raw_fd();
    let path = format!(in alloc; "/proc/self/fd/{descriptor}")?;
    let child = thread::spawn(&rt, move || write_pieces(writer)).map_err(AllocError::from)?;
    let mut files = StdFiles::new(&rt, alloc);
    let mut whole = Vec::new(alloc);
    let got = files.read(path.as_str(), 1_000_000, &mut whole);
    // The reading end closes before the thread is joined, so that it never waits for room.
    drop(reader);
    assert!(rt; child.join(&rt));
    assert_eq!(rt; got, Ok(Got::Whole));
    assert_eq!(rt; whole.len(), 280_000);
    Ok(())
}

#[test]
fn a_writer_is_a_sink(rt: HostRuntime) -> Result<(), Fail> {
    let (mut reader, writer) = io::pipe(&rt)?;
    let mut sink = StdSink::new(writer);
    assert_eq!(rt; sink.put(b"taken\n"), Ok(6));
    let mut bytes = [0u8; 16];
    let count = reader.read(&mut bytes)?;
    assert_eq!(rt; bytes.get(..count), Some(b"taken\n".as_slice()));
    Ok(())
}

// What the system refuses is a fault: a folder that isn't there, a device that is full, and a folder that opens and can't
// be read.
#[test]
fn faults_of_the_system_are_told(rt: HostRuntime) -> Result<(), Fail> {
    let alloc = rt.alloc();
    let mut files = StdFiles::new(&rt, alloc);
    assert_eq!(rt;
        files.save("none/kept.txt", b"five\n"),
        Err(FileStop::Failed)
    );
    assert_eq!(rt; files.save("/dev/full", b"five\n"), Err(FileStop::Failed));
    let mut bytes = Vec::new(alloc);
    assert_eq!(rt; files.read(".", 5, &mut bytes), Err(FileStop::Failed));
    let mut sink = StdSink::new(fs::create(&rt, "/dev/full")?);
    assert_eq!(rt; sink.put(b"taken\n"), Err(Failed));
    Ok(())
}
