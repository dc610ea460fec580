use disk_model::Disk;
use file_disk::{OpenFault, open_alone, open_disk, open_to_read};
use std::fs;
use std::test::Fail;

const PATH: &str = "kept_file_test";

const FOLDER: &str = "kept_folder_test";

#[test]
fn what_was_written_is_found_again(rt: HostRuntime) -> Result<(), Fail> {
    let _ = fs::remove_file(&rt, PATH);
    // Nobody who looks makes the file.
    assert!(rt; matches!(open_to_read(&rt, PATH), Err(OpenFault::Refused)));
    assert!(rt; matches!(open_alone(&rt, PATH), Err(OpenFault::Refused)));
    assert!(rt; matches!(fs::metadata(&rt, PATH), Err(_)));
    let Ok(mut disk) = open_disk(&rt, PATH, 100) else {
        return Err(Fail::new("not opened"));
    };
    assert_eq!(rt; disk.size(), 0);
    assert!(rt; disk.write(0, b"abc").is_ok());
    assert!(rt; disk.write(1, b"xyz").is_ok());
    assert!(rt; disk.sync().is_ok());
    // The lock keeps others out, but not those who only look.
    assert!(rt; matches!(open_disk(&rt, PATH, 100), Err(OpenFault::Busy)));
    assert!(rt; matches!(open_alone(&rt, PATH), Err(OpenFault::Busy)));
    assert!(rt; matches!(open_to_read(&rt, PATH), Ok(_)));
    drop(disk);
    assert!(rt; matches!(open_alone(&rt, PATH), Ok(_)));
    assert!(rt; matches!(open_disk(&rt, PATH, 3), Err(OpenFault::Refused)));
    let Ok(mut disk) = open_disk(&rt, PATH, 4) else {
        return Err(Fail::new("not opened again"));
    };
    assert_eq!(rt; disk.size(), 4);
    let mut back = [0; 3];
    assert!(rt; disk.read(1, &mut back).is_ok());
    assert_eq!(rt; back, *b"xyz");
    drop(disk);
    fs::remove_file(&rt, PATH)?;
    Ok(())
}

#[test]
fn a_folder_is_refused(rt: HostRuntime) -> Result<(), Fail> {
    let _ = fs::remove_dir(&rt, FOLDER);
    fs::create_dir(&rt, FOLDER)?;
    assert!(rt; matches!(open_disk(&rt, FOLDER, 100), Err(OpenFault::Refused)));
    assert!(rt; matches!(open_to_read(&rt, FOLDER), Err(OpenFault::Refused)));
    fs::remove_dir(&rt, FOLDER)?;
    Ok(())
}
