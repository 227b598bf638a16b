use nj_memory::{MemShelf, MemSink};
use nj_outside::{
    FileShelf, ReadRefused, Sink, StreamSink, WriteFault, put_all, read_all, write_all,
};
use std::alloc::{AllocError, Global};
use std::io::{ErrorKind, Write};
use std::test::Fail;
use std::{env, fs, io};

fn named(alloc: Global, name: &str, bytes: &[u8]) -> Result<(String, Vec<u8>), AllocError> {
    Ok((
        String::from_str(alloc, name)?,
        Vec::from_slice(alloc, bytes)?,
    ))
}

#[test]
fn writes_fail_by_number(rt: HostRuntime) -> Result<(), Fail> {
    let alloc = rt.alloc();
    let mut sink = MemSink::new(alloc, vec![in alloc; 2u64]?, 10);
    assert_eq!(rt;
        write_all(&mut sink, b"# won step=5 frames=8"),
        Err(WriteFault)
    );
    assert_eq!(rt; sink.bytes(), b"# won step".as_slice());
    assert_eq!(rt; (sink.calls(), sink.faults(), sink.dry()), (2, 1, 0));
    assert_eq!(rt; write_all(&mut sink, b"=5 frames=8"), Ok(()));
    assert_eq!(rt; sink.bytes(), b"# won step=5 frames=8".as_slice());
    assert_eq!(rt; (sink.calls(), sink.faults()), (4, 1));
    Ok(())
}

fn ten_bytes(alloc: Global, failing: &[u64]) -> Result<MemShelf, AllocError> {
    let mut files = Vec::new(alloc);
    files.push(named(alloc, "ten", b"0123456789")?)?;
    files.push(named(alloc, "ten", b"hidden")?)?;
    Ok(MemShelf::new(alloc, files, Vec::from_slice(alloc, failing)?, 4))
}

#[test]
fn reads_fail_by_number(rt: HostRuntime) -> Result<(), Fail> {
    let mut shelf = ten_bytes(rt.alloc(), &[3])?;
    let read = read_all(rt.alloc(), &mut shelf, "ten", 10);
    assert!(rt; matches!(read, Err(ReadRefused::ReadFault)));
    assert_eq!(rt; (shelf.calls(), shelf.read_faults()), (3, 1));
    let read = read_all(rt.alloc(), &mut shelf, "ten", 10);
    assert_eq!(rt;
        read.ok().ok_or("not read")?.as_slice(),
        b"0123456789".as_slice()
    );
    assert_eq!(rt; (shelf.calls(), shelf.read_faults()), (7, 1));
    Ok(())
}

#[test]
fn reads_are_refused(rt: HostRuntime) -> Result<(), Fail> {
    let mut shelf = ten_bytes(rt.alloc(), &[])?;
    let long = read_all(rt.alloc(), &mut shelf, "ten", 9);
    assert!(rt; matches!(long, Err(ReadRefused::TooLong { limit: 9 })));
    let missing = read_all(rt.alloc(), &mut shelf, "one", 9);
    assert!(rt; matches!(missing, Err(ReadRefused::ReadFault)));
    assert_eq!(rt;
        (shelf.calls(), shelf.read_faults(), shelf.put_faults()),
        (4, 1, 0)
    );
    Ok(())
}

#[test]
fn puts_fail_by_number(rt: HostRuntime) -> Result<(), Fail> {
    let alloc = rt.alloc();
    let mut shelf = MemShelf::new(alloc, Vec::new(alloc), vec![in alloc; 4u64]?, 3);
    assert_eq!(rt; put_all(&mut shelf, "save", b"hello"), Ok(()));
    assert_eq!(rt; shelf.file("save"), Some(b"hello".as_slice()));
    assert_eq!(rt; put_all(&mut shelf, "save", b"world"), Err(WriteFault));
    assert_eq!(rt; shelf.file("save"), Some(b"wor".as_slice()));
    assert_eq!(rt; put_all(&mut shelf, "save", b""), Ok(()));
    assert_eq!(rt; shelf.file("save"), Some(b"".as_slice()));
    assert_eq!(rt; shelf.file("other"), None);
    assert_eq!(rt;
        (
            shelf.calls(),
            shelf.put_faults(),
            shelf.read_faults(),
            shelf.dry()
        ),
        (5, 1, 0, 0)
    );
    Ok(())
}

#[test]
fn a_file_of_the_system(rt: HostRuntime) -> Result<(), Fail> {
    let folder = env::temp_dir(&rt)?;
    let folder = folder.to_str().ok_or("no text")?;
    let process = std::process::id(rt.process());
    let name = format!(in rt.alloc(); "{folder}/nj_outside-{process}")?;
    let mut shelf = FileShelf::new(&rt);
    let longer = put_all(&mut shelf, name.as_str(), b"a longer text");
    let shorter = put_all(&mut shelf, name.as_str(), b"text");
    let read = read_all(rt.alloc(), &mut shelf, name.as_str(), 4);
    fs::remove_file(&rt, name.as_str())?;
    assert_eq!(rt; (longer, shorter), (Ok(()), Ok(())));
    assert_eq!(rt; read.ok().ok_or("not read")?.as_slice(), b"text".as_slice());
    assert_eq!(rt; (shelf.read_faults(), shelf.put_faults()), (0, 0));
    Ok(())
}

#[test]
fn no_file_of_the_system(rt: HostRuntime) {
    let mut shelf = FileShelf::new(&rt);
    let read = read_all(rt.alloc(), &mut shelf, "no/such/file", 4);
    assert!(rt; matches!(read, Err(ReadRefused::ReadFault)));
    assert_eq!(rt; (shelf.read_faults(), shelf.put_faults()), (1, 0));
    assert_eq!(rt;
        put_all(&mut shelf, "no/such/file", b"text"),
        Err(WriteFault)
    );
    assert_eq!(rt; (shelf.read_faults(), shelf.put_faults()), (1, 1));
}

/// A stream that takes three bytes a write, is interrupted at its first and fails at its fourth.
#[derive(Drop)]
struct Failing {
    writes: u64,
}

impl Write for Failing {
    fn write(&mut self, bytes: &[u8]) -> io::Result<usize> {
        self.writes = self.writes.saturating_add(1);
        match self.writes {
            1 => Err(io::Error::from(ErrorKind::Interrupted)),
            4 => Ok(0),
            _ => Ok(bytes.len().min(3)),
        }
    }

    fn flush(&mut self) -> io::Result<()> {
        Ok(())
    }
}

#[test]
fn streams_of_the_system(rt: HostRuntime) -> Result<(), Fail> {
    let mut sink = StreamSink::new(Failing { writes: 0 });
    assert_eq!(rt; write_all(&mut sink, b"sixsix"), Ok(()));
    assert_eq!(rt; sink.faults(), 0);
    assert_eq!(rt; sink.write(b"more").is_err(), true);
    assert_eq!(rt; sink.faults(), 1);
    Ok(())
}
