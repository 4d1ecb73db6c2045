use lq_host::FileDisk;
use lq_outside::Disk;
use std::fs::{self, File};
use std::os::fd::AsRawFd;
use std::test::Fail;

#[test]
fn a_file_has_no_descriptor_of_a_standard_stream(rt: HostRuntime) -> Result<(), Fail> {
    let path = "file_disk_descriptor.lq";
    // The system gives the lowest descriptor that is free, as that of a closed standard stream.
    let lowest = File::create(&rt, path)?.as_raw_fd();
    let mut disk = FileDisk::open(&rt, path);
    let next = File::open(&rt, path)?;
    assert_eq!(rt; next.as_raw_fd(), lowest);
    assert_eq!(rt; disk.size()?, 0);
    fs::remove_file(&rt, path)?;
    Ok(())
}

#[test]
fn a_file_keeps_what_is_written(rt: HostRuntime) -> Result<(), Fail> {
    let path = "file_disk_test.lq";
    let _absent = fs::remove_file(&rt, path);
    let mut disk = FileDisk::open(&rt, path);
    assert_eq!(rt; disk.size()?, 0);
    disk.write_at(0, b"abcdef")?;
    disk.write_at(4, b"EFGH")?;
    disk.sync()?;

    let mut locked_out = FileDisk::open(&rt, path);
    assert!(rt; locked_out.size().is_err());
    assert_eq!(rt; locked_out.faults(), 1);
    assert_eq!(rt; disk.size()?, 8);
    drop(disk);

    let mut again = FileDisk::open(&rt, path);
    assert_eq!(rt; again.size()?, 8);
    let mut bytes = [0; 5];
    again.read(3, &mut bytes)?;
    assert_eq!(rt; bytes, *b"dEFGH");
    assert_eq!(rt; again.faults(), 0);
    assert!(rt; again.read(4, &mut bytes).is_err());
    assert_eq!(rt; again.faults(), 1);
    fs::remove_file(&rt, path)?;

    let mut lost = FileDisk::open(&rt, "absent_folder/file_disk_test.lq");
    assert!(rt; lost.size().is_err());
    assert!(rt; lost.read(0, &mut []).is_err());
    assert!(rt; lost.write_at(0, b"abc").is_err());
    assert!(rt; lost.sync().is_err());
    assert_eq!(rt; lost.faults(), 4);
    Ok(())
}

// No program that runs can be opened for writing, by whatever user.
#[test]
fn a_file_that_cannot_be_written_is_read(rt: HostRuntime) -> Result<(), Fail> {
    let path = "/proc/self/exe";
    let mut disk = FileDisk::open(&rt, path);
    let mut beside = FileDisk::open(&rt, path);
    let mut bytes = [0; 4];
    disk.read(0, &mut bytes)?;
    assert_eq!(rt; bytes, *b"\x7fELF");
    assert!(rt; disk.size()? > 4);
    assert_eq!(rt; beside.size()?, disk.size()?);
    assert_eq!(rt; disk.faults(), 0);
    assert!(rt; disk.write_at(0, b"\x7fELF").is_err());
    assert_eq!(rt; disk.faults(), 1);
    assert!(rt; disk.write_at(4, b"").is_ok());

    let mut folder = FileDisk::open(&rt, ".");
    assert!(rt; folder.size().is_err());
    assert_eq!(rt; folder.faults(), 1);
    Ok(())
}
