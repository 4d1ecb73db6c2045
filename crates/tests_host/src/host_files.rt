use lq_host::HostFiles;
use lq_outside::{Files, FilesFault, Found};
use std::fs::{self, File};
use std::os::unix::fs::symlink;
use std::test::Fail;

// The bytes of a file at most.
const MAX_LEN: u64 = 16_777_216;

fn lists(files: &mut HostFiles<'_>, folder: &str, want: &[&str]) -> bool {
    match files.list(folder) {
        Ok(paths) => {
            paths.len() == want.len()
                && want.iter().all(|path| paths
                    .as_slice()
                    .iter()
                    .any(|found| found.as_str() == *path))
        }
        Err(_) => false,
    }
}

fn shown(files: &mut HostFiles<'_>, path: &str) -> &'static str {
    match files.read(path) {
        Ok(Found::Bytes(bytes)) if bytes.as_slice() == b"one".as_slice() => "one",
        Ok(Found::Bytes(_)) => "other bytes",
        Ok(Found::Absent) => "absent",
        Ok(Found::TooLong) => "too long",
        Err(_) => "failed",
    }
}

#[test]
fn files_are_read_and_listed(rt: HostRuntime) -> Result<(), Fail> {
    let _absent = fs::remove_dir_all(&rt, "host_files_test");
    fs::create_dir_all(&rt, "host_files_test/old")?;
    fs::write(&rt, "host_files_test/1.sql", "one")?;
    fs::write(&rt, "host_files_test/old/2.sql", "two")?;
    File::create(&rt, "host_files_test/old/long")?.set_len(MAX_LEN + 1)?;
    File::create(&rt, "host_files_test/old/longest")?.set_len(MAX_LEN)?;

    let mut files = HostFiles::new(&rt);
    for (path, want) in [
        ("host_files_test/1.sql", "one"),
        ("host_files_test/old/2.sql", "other bytes"),
        ("host_files_test/old/longest", "other bytes"),
        ("host_files_test/old/long", "too long"),
        ("host_files_test/old", "absent"),
        ("host_files_test/2.sql", "absent"),
        ("host_files_test/1.sql/2.sql", "absent"),
    ] {
        assert_eq!(rt; shown(&mut files, path), want, "{path}");
    }
    let mut unnameable = String::from_str(rt.alloc(), "host_files_test/")?;
    for _ in 0..256 {
        unnameable.push_str("n")?;
    }
    assert_eq!(rt; shown(&mut files, unnameable.as_str()), "absent");
    assert!(rt; lists(&mut files, unnameable.as_str(), &[]));
    assert!(rt;
        lists(
            &mut files,
            "host_files_test/old",
            &[
                "host_files_test/old/2.sql",
                "host_files_test/old/long",
                "host_files_test/old/longest",
            ]
        )
    );
    assert!(rt; lists(&mut files, "host_files_test/1.sql", &[]));
    assert!(rt; lists(&mut files, "host_files_absent", &[]));
    let here = files.list("")?;
    assert!(rt;
        here.as_slice()
            .iter()
            .any(|path| path.as_str() == "host_files_test/1.sql")
    );
    assert_eq!(rt; files.faults(), 0);
    fs::remove_dir_all(&rt, "host_files_test")?;
    Ok(())
}

#[test]
fn a_folder_lies_at_most_64_levels_down(rt: HostRuntime) -> Result<(), Fail> {
    let _absent = fs::remove_dir_all(&rt, "deep_files_test");
    let mut folder = String::from_str(rt.alloc(), "deep_files_test")?;
    for _ in 0..64 {
        folder.push_str("/d")?;
    }
    fs::create_dir_all(&rt, folder.as_str())?;
    folder.push_str("/1.sql")?;
    fs::write(&rt, folder.as_str(), "one")?;
    let mut files = HostFiles::new(&rt);
    assert!(rt; lists(&mut files, "deep_files_test", &[folder.as_str()]));
    assert_eq!(rt; files.faults(), 0);

    folder.push_str(".d")?;
    fs::create_dir_all(&rt, folder.as_str())?;
    assert_eq!(rt;
        files.list("deep_files_test").err(),
        Some(FilesFault::Failed)
    );
    assert_eq!(rt; files.faults(), 1);
    assert_eq!(rt; files.list("deep_files_test/d")?.len(), 1);
    fs::remove_dir_all(&rt, "deep_files_test")?;
    Ok(())
}

#[test]
fn a_link_is_followed_and_has_to_lead_somewhere(rt: HostRuntime) -> Result<(), Fail> {
    let _absent = fs::remove_dir_all(&rt, "linked_files_test");
    fs::create_dir_all(&rt, "linked_files_test/in")?;
    fs::write(&rt, "linked_files_test/1.sql", "one")?;
    symlink(&rt, "../1.sql", "linked_files_test/in/2.sql")?;
    let mut files = HostFiles::new(&rt);
    assert!(rt;
        lists(
            &mut files,
            "linked_files_test/in",
            &["linked_files_test/in/2.sql"]
        )
    );
    assert_eq!(rt; files.faults(), 0);

    fs::remove_file(&rt, "linked_files_test/1.sql")?;
    assert_eq!(rt;
        files.list("linked_files_test").err(),
        Some(FilesFault::Failed)
    );
    assert_eq!(rt; files.faults(), 1);
    assert_eq!(rt; shown(&mut files, "linked_files_test/in/2.sql"), "absent");
    fs::remove_dir_all(&rt, "linked_files_test")?;
    Ok(())
}
