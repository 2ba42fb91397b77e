use crate::disk::{got_of, read_open};
use crate::{
    DiskFiles, FileName, Files, Got, MemFile, MemFiles, MemSink, NameFault, Opened, Put, PutFault,
    Sink, StreamSink, put_all,
};
use std::alloc::Global;
use std::test::Fail;
use std::{fs, io};

fn file(alloc: Global, name: &[u8], bytes: &[u8]) -> Result<MemFile, Fail> {
    Ok(MemFile {
        name: FileName::new(alloc, name)?,
        bytes: Vec::from_slice(alloc, bytes)?,
    })
}

#[test]
fn names(rt: HostRuntime) -> Result<(), Fail> {
    let long = [b'n'; 256];
    let table: [(&[u8], &[u8]); 5] = [
        (b"row", b"row.tex"),
        (b"row.tfm", b"row.tfm"),
        (b"a.b/row", b"a.b/row.tex"),
        (b"a/b.c", b"a/b.c"),
        (&long[..251], &[]),
    ];
    for (text, want) in &table[..4] {
        let name = FileName::with_ending(rt.alloc(), text, b".tex")?;
        assert_eq!(rt; name.bytes(), *want);
        assert_eq!(rt; FileName::new(rt.alloc(), text)?.bytes(), *text);
    }
    assert!(rt; FileName::with_ending(rt.alloc(), table[4].0, b".tex").is_ok());
    for text in [&long[..252], b"a b", b"\x7F"] {
        let refused = FileName::with_ending(rt.alloc(), text, b".tex").err();
        assert_eq!(rt; refused.unwrap_or(NameFault::NoMemory), NameFault::BadName);
    }
    for text in [&long[..], b"", b"a b", b"\x80"] {
        let refused = FileName::new(rt.alloc(), text).err();
        assert_eq!(rt; refused.unwrap_or(NameFault::NoMemory), NameFault::BadName);
    }
    Ok(())
}

#[test]
fn files_in_memory(rt: HostRuntime) -> Result<(), Fail> {
    let held = vec![in rt.alloc();
        file(rt.alloc(), b"a", b"abcdefg")?,
        file(rt.alloc(), b"a", b"x")?,
    ]?;
    let cuts = vec![in rt.alloc(); 2usize, 0]?;
    let fails = vec![in rt.alloc(); 3u64]?;
    let mut files = MemFiles::new(rt.alloc(), held, cuts, fails);
    let Opened::Found(first) = files.open(&FileName::new(rt.alloc(), b"a")?) else {
        return Err(Fail::from("not found"));
    };
    let mut all = Vec::new(rt.alloc());
    let wanted = [
        Got::Bytes(2),
        Got::Bytes(1),
        Got::Failed,
        Got::Bytes(1),
        Got::Bytes(2),
        Got::Bytes(1),
        Got::End,
    ];
    for want in wanted {
        let mut buffer = [0u8; 5];
        let got = files.read(first, &mut buffer);
        assert_eq!(rt; got, want);
        if let Got::Bytes(n) = got {
            all.extend_from_slice(&buffer[..n])?;
        }
    }
    assert_eq!(rt; all.as_slice(), b"abcdefg".as_slice());
    assert_eq!(rt;
        files.open(&FileName::new(rt.alloc(), b"b")?),
        Opened::Missing
    );
    files.close(first);
    Ok(())
}

#[test]
fn sinks_in_memory(rt: HostRuntime) -> Result<(), Fail> {
    let table: [(&[usize], &[u64], Result<(), PutFault>, &[u8]); 4] = [
        (&[], &[], Ok(()), b"abc"),
        (&[1], &[], Ok(()), b"abc"),
        (&[1], &[1], Err(PutFault::Failed), b"a"),
        (&[2, 1], &[0], Err(PutFault::Failed), b""),
    ];
    for (cuts, fails, want, held) in table {
        let cuts = Vec::from_slice(rt.alloc(), cuts)?;
        let fails = Vec::from_slice(rt.alloc(), fails)?;
        let mut sink = MemSink::new(rt.alloc(), cuts, fails);
        assert_eq!(rt; put_all(&mut sink, b"abc"), want);
        assert_eq!(rt; sink.bytes(), held);
    }
    let mut sink = MemSink::new(rt.alloc(), Vec::new(rt.alloc()), Vec::new(rt.alloc()));
    assert_eq!(rt; sink.put(b"xy"), Put::Took(2));
    Ok(())
}

#[test]
fn files_of_the_disk(rt: HostRuntime) -> Result<(), Fail> {
    fs::write(&rt, "outside.txt", b"abc")?;
    let name = FileName::new(rt.alloc(), b"outside.txt")?;
    let absent = FileName::new(rt.alloc(), b"absent.txt")?;
    let through = FileName::new(rt.alloc(), b"outside.txt/x")?;
    let alloc = rt.alloc();
    let mut files = DiskFiles::new(rt.clone()?, alloc);
    assert_eq!(rt; files.open(&absent), Opened::Missing);
    assert_eq!(rt; files.open(&through), Opened::Failed);
    let Opened::Found(file) = files.open(&name) else {
        return Err(Fail::from("not found"));
    };
    let mut buffer = [0u8; 2];
    assert_eq!(rt; files.read(file, &mut buffer), Got::Bytes(2));
    assert_eq!(rt; buffer, *b"ab");
    assert_eq!(rt; files.read(file, &mut buffer), Got::Bytes(1));
    assert_eq!(rt; buffer[0], b'c');
    assert_eq!(rt; files.read(file, &mut buffer), Got::End);
    files.close(file);
    Ok(())
}

// A reader that gives two bytes and then fails.
#[derive(Drop)]
struct Broken {
    given: bool,
}

impl io::Read for Broken {
    fn read(&mut self, buf: &mut [u8]) -> io::Result<usize> {
        if self.given || buf.len() < 2 {
            return Err(io::Error::from(io::ErrorKind::Other));
        }
        self.given = true;
        buf[0] = b'a';
        buf[1] = b'b';
        Ok(2)
    }
}

#[test]
fn a_file_that_fails_in_the_middle(rt: HostRuntime) -> Result<(), Fail> {
    let mut files = vec![in rt.alloc(); Some(Broken { given: false })]?;
    let mut buffer = [0u8; 4];
    for want in [Got::Bytes(2), Got::Failed, Got::Failed] {
        let open = files.get(0).ok_or("no file")?;
        if open.is_none() {
            return Err(Fail::from("closed"));
        }
        assert_eq!(rt; got_of(read_open(&mut files, 0, &mut buffer)), want);
    }
    assert_eq!(rt; buffer, *b"ab\0\0");
    // a folder can be opened, and each read of it fails
    let mut files = DiskFiles::new(rt.clone()?, rt.alloc());
    let Opened::Found(folder) = files.open(&FileName::new(rt.alloc(), b".")?) else {
        return Err(Fail::from("not found"));
    };
    assert_eq!(rt; files.read(folder, &mut buffer), Got::Failed);
    files.close(folder);
    Ok(())
}

// A writer that takes so many bytes of a piece, or fails.
#[derive(Drop)]
struct Taking {
    most: usize,
    fails: Option<io::ErrorKind>,
}

impl io::Write for Taking {
    fn write(&mut self, buf: &[u8]) -> io::Result<usize> {
        match self.fails {
            Some(kind) => Err(io::Error::from(kind)),
            None => Ok(buf.len().min(self.most)),
        }
    }

    fn flush(&mut self) -> io::Result<()> {
        Ok(())
    }
}

#[test]
fn sinks_over_writers(rt: HostRuntime) -> Result<(), Fail> {
    let mut held = Vec::new(rt.alloc());
    assert_eq!(rt; put_all(&mut StreamSink::new(&mut held), b"abc"), Ok(()));
    assert_eq!(rt; held.as_slice(), b"abc".as_slice());
    let table = [
        (3, None, Put::Took(3)),
        (1, None, Put::Took(1)),
        (0, None, Put::Failed),
        (3, Some(io::ErrorKind::BrokenPipe), Put::Failed),
        (3, Some(io::ErrorKind::OutOfMemory), Put::NoMemory),
    ];
    for (most, fails, want) in table {
        assert_eq!(rt; StreamSink::new(Taking { most, fails }).put(b"abc"), want);
    }
    Ok(())
}
