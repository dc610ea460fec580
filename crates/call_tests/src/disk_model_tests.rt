use disk_model::{Disk, MemDisk};
use std::alloc::Global;
use std::test::Fail;

const END: u64 = 1 << 20;

// Eight calls pass, there is room for four bytes, and for three writes and syncs.
fn small_disk(alloc: Global) -> Option<MemDisk> {
    let Ok(bytes) = [1u8, 2, 3].to_vec(alloc) else {
        return None;
    };
    MemDisk::make(alloc, bytes, 4, 3, 8).ok()
}

// A write, where there is something to write and it leaves no gap.
fn put(disk: &mut MemDisk, at: u64, piece: &[u8]) -> bool {
    if piece.is_empty() {
        return false;
    }
    if disk.size() < at {
        return false;
    }
    if at > END {
        return false;
    }
    if piece.len() > 100 {
        return false;
    }
    disk.write(at, piece).is_ok()
}

fn sync(disk: &mut MemDisk) -> bool {
    disk.sync().is_ok()
}

// Which byte stands first, where a read passes.
fn first(disk: &mut MemDisk) -> Option<u8> {
    if disk.size() == 0 {
        return None;
    }
    let mut one = [0];
    match disk.read(0, &mut one) {
        Ok(()) => Some(one[0]),
        Err(_) => None,
    }
}

#[test]
fn what_was_written_is_read(rt: HostRuntime) -> Result<(), Fail> {
    let mut disk = small_disk(rt.alloc()).expect(&rt, "memory");
    assert_eq!(rt; put(&mut disk, 0, &[9]), true);
    assert_eq!(rt; put(&mut disk, 2, &[8, 7]), true);
    assert_eq!(rt; disk.bytes(), [9, 2, 8, 7].as_slice());
    assert_eq!(rt; first(&mut disk), Some(9));
    Ok(())
}

// The room for bytes is used up, then that for writes and syncs, then the calls that pass.
#[test]
fn what_has_no_room_fails(rt: HostRuntime) -> Result<(), Fail> {
    let mut disk = small_disk(rt.alloc()).expect(&rt, "memory");
    let calls = [
        put(&mut disk, 0, &[4, 5, 6]),
        sync(&mut disk),
        put(&mut disk, 0, &[7, 7]),
        put(&mut disk, 0, &[8]),
        sync(&mut disk),
        first(&mut disk) == Some(8),
        first(&mut disk) == Some(8),
        first(&mut disk) == Some(8),
        first(&mut disk).is_none(),
    ];
    assert_eq!(rt;
        calls,
        [true, true, false, true, false, true, true, true, true]
    );
    Ok(())
}
