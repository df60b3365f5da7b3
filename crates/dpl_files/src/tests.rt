use crate::files::FileHost;
use dpl_host::{read_all, write_all};
use std::fs;
use std::test::*;

/// A library of one bar, `[0,100)*[0,20)` on layer 1.
const BAR: [u8; 170] = [
    0, 6, 0, 2, 2, 88, 0, 28, 1, 2, 0, 0, 0, 0, 0, 0, 0, 0, 0, 0, 0, 0, 0, 0, 0, 0, 0, 0, 0, 0, 0,
    0, 0, 0, 0, 8, 2, 6, 76, 73, 66, 0, 0, 20, 3, 5, 62, 65, 137, 55, 75, 198, 167, 240, 57, 68,
    184, 47, 160, 155, 90, 84, 0, 28, 5, 2, 0, 0, 0, 0, 0, 0, 0, 0, 0, 0, 0, 0, 0, 0, 0, 0, 0, 0,
    0, 0, 0, 0, 0, 0, 0, 8, 6, 6, 84, 79, 80, 0, 0, 4, 8, 0, 0, 6, 13, 2, 0, 1, 0, 6, 14, 2, 0, 0,
    0, 44, 16, 3, 0, 0, 0, 0, 0, 0, 0, 0, 0, 0, 0, 100, 0, 0, 0, 0, 0, 0, 0, 100, 0, 0, 0, 20, 0,
    0, 0, 0, 0, 0, 0, 20, 0, 0, 0, 0, 0, 0, 0, 0, 0, 4, 17, 0, 0, 4, 7, 0, 0, 4, 4, 0,
];

#[test]
fn a_real_file_is_written_and_read_back(rt: HostRuntime) -> Result<(), Fail> {
    let alloc = rt.alloc();
    let name = "dpl-written-and-read-back";
    let mut host = FileHost::new(&rt, &[]);
    assert!(rt; write_all(&mut host, name, &BAR).is_ok());
    let bytes = read_all(alloc, &mut host, name)
        .ok()
        .ok_or("it is read back")?;
    assert_eq!(rt; bytes.as_slice(), BAR.as_slice());
    assert_eq!(rt; host.read_faults(), 0);
    assert!(rt; read_all(alloc, &mut host, "dpl-not-there").is_err());
    assert_eq!(rt; host.read_faults(), 1);
    fs::remove_file(&rt, name)?;
    Ok(())
}

#[test]
fn a_failed_call_is_told(rt: HostRuntime) -> Result<(), Fail> {
    let alloc = rt.alloc();
    let words = [
        "dpl-not-there",
        "dpl-no-folder/out",
        "/dev/full",
        "dpl-no-folder/p",
        ".",
    ];
    let mut host = FileHost::new(&rt, &words);
    assert!(rt; host.fault().is_none());
    let reads = [
        ("dpl-not-there", "dpl-not-there: No such file or directory"),
        (".", ".: Is a directory"),
    ];
    for (name, told) in reads {
        assert!(rt; read_all(alloc, &mut host, name).is_err(), "{name}");
        let fault = host.fault().ok_or("it is told")?;
        assert_eq!(rt; fault.to_string(alloc)?.as_str(), told);
    }
    let writes = [
        (
            "dpl-no-folder/out",
            "dpl-no-folder/out: No such file or directory",
        ),
        ("/dev/full", "/dev/full: No space left on device"),
        (
            "dpl-no-folder/p.8.gds",
            "dpl-no-folder/p: No such file or directory",
        ),
        (".", ".: Is a directory"),
    ];
    for (name, told) in writes {
        assert!(rt; write_all(&mut host, name, &BAR).is_err(), "{name}");
        let fault = host.fault().ok_or("it is told")?;
        assert_eq!(rt; fault.to_string(alloc)?.as_str(), told);
    }
    Ok(())
}
