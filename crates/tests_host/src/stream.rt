use lq_host::Stream;
use lq_outside::{Sink, write_all};
use std::fs::{self, File};
use std::io::{self, ErrorKind, Write};
use std::test::Fail;

// A writer whose first calls a signal interrupts.
#[derive(Drop)]
struct Interrupted {
    writer: File,
    calls: u64,
}

impl Write for Interrupted {
    fn write(&mut self, piece: &[u8]) -> io::Result<usize> {
        if self.calls > 0 {
            self.calls -= 1;
            return Err(ErrorKind::Interrupted.into());
        }
        self.writer.write(piece)
    }

    fn flush(&mut self) -> io::Result<()> {
        self.writer.flush()
    }
}

#[test]
fn an_interrupted_write_goes_on(rt: HostRuntime) -> Result<(), Fail> {
    let path = "interrupted_test.txt";
    let writer = File::create(&rt, path)?;
    let mut stream = Stream::new(Interrupted { writer, calls: 3 });
    write_all(&mut stream, b"one line\n")?;
    assert_eq!(rt; stream.faults(), 0);
    assert_eq!(rt; fs::read(&rt, path)?.as_slice(), b"one line\n".as_slice());
    fs::remove_file(&rt, path)?;
    Ok(())
}

#[test]
fn a_stream_passes_its_text_on(rt: HostRuntime) -> Result<(), Fail> {
    let path = "stream_test.txt";
    let mut stream = Stream::new(File::create(&rt, path)?);
    write_all(&mut stream, b"one line\n")?;
    assert_eq!(rt; stream.write(b"")?, 0);
    assert_eq!(rt; stream.faults(), 0);
    assert_eq!(rt; fs::read(&rt, path)?.as_slice(), b"one line\n".as_slice());

    // A file that is open for reading alone takes nothing.
    let mut refused = Stream::new(File::open(&rt, path)?);
    assert!(rt; refused.write(b"more").is_err());
    assert_eq!(rt; refused.faults(), 1);

    let mut room = [0; 2];
    let mut full = Stream::new(room.as_mut_slice());
    assert_eq!(rt; full.write(b"abc")?, 2);
    assert!(rt; full.write(b"c").is_err());
    assert_eq!(rt; full.faults(), 1);
    fs::remove_file(&rt, path)?;
    Ok(())
}
