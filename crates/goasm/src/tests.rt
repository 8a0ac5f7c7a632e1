//! The adapters over files, readers and writers that fail.
use crate::disk::{Disk, read_first};
use crate::stream::Stream;
use goasm_base::{Failed, Shelf, ShelfNo, Sink};
use std::io;
use std::io::{ErrorKind, Read, Write};
use std::test::Fail;

/// A reader that counts down to 0, a byte a read, and then ends or fails.
#[derive(Drop)]
struct Countdown {
    left: u8,
    fails: bool,
}

impl Read for Countdown {
    fn read(&mut self, buf: &mut [u8]) -> io::Result<usize> {
        if buf.is_empty() {
            return Ok(0);
        }
        if self.left > 0 {
            self.left -= 1;
            buf[0] = self.left;
            return Ok(1);
        }
        if self.fails {
            return Err(io::Error::from(ErrorKind::Other));
        }
        Ok(0)
    }
}

/// A writer that takes two bytes a write, as long as there is room.
#[derive(Drop)]
struct Narrow {
    room: usize,
}

impl Write for Narrow {
    fn write(&mut self, buf: &[u8]) -> io::Result<usize> {
        let count = buf.len().min(2).min(self.room);
        self.room -= count;
        Ok(count)
    }

    fn flush(&mut self) -> io::Result<()> {
        Ok(())
    }
}

#[test]
fn an_absent_file_is_a_failed_read(rt: HostRuntime) -> Result<(), Fail> {
    let mut disk = Disk::new(&rt);
    for name in [b"no/such/file".as_slice(), b"", b"\xff"] {
        let read = disk.read(rt.alloc(), name, 10);
        assert!(rt;
            matches!(read, Err(ShelfNo::Failed)),
            "an absent file was read"
        );
    }
    assert_eq!(rt; (disk.reads, disk.faults), (3, 3), "reads and faults");
    Ok(())
}

#[test]
fn a_reader_gives_its_first_bytes_or_fails(rt: HostRuntime) -> Result<(), Fail> {
    for (most, want) in [(10, [2, 1, 0].as_slice()), (2, &[2, 1, 0]), (1, &[2, 1])] {
        let mut reader = Countdown {
            left: 3,
            fails: false,
        };
        let bytes = read_first(&mut reader, rt.alloc(), most)?;
        assert_eq!(rt; bytes.as_slice(), want, "up to {most}");
    }
    let mut reader = Countdown {
        left: 3,
        fails: true,
    };
    let read = read_first(&mut reader, rt.alloc(), 10);
    assert!(rt;
        matches!(read, Err(ShelfNo::Failed)),
        "a read that failed ended a file"
    );
    Ok(())
}

#[test]
fn a_writer_may_take_part(rt: HostRuntime) -> Result<(), Fail> {
    let mut stream = Stream::new(Narrow { room: 7 });
    let whole = stream.write(b"whole");
    assert!(rt; matches!(whole, Ok(())), "room for all");
    let part = stream.write(b"part");
    assert!(rt; matches!(part, Err(Failed)), "room for two");
    assert_eq!(rt;
        (stream.faults, stream.writer.room),
        (1, 0),
        "faults and room"
    );
    Ok(())
}
