use cash_amounts::Memory;
use row_list::RowList;
use std::alloc::Global;

// Puts an item at the end of the last row, if there is a row.
fn put(rows: &mut RowList<u32>, item: u32) -> Result<(), Memory> {
    if rows.rows() == 0 {
        return Ok(());
    }
    rows.push(item)
}

// The rows 1 2, none, and 3.
fn three_rows(alloc: Global) -> Result<RowList<u32>, Memory> {
    let mut rows = RowList::new(alloc);
    rows.begin_row()?;
    put(&mut rows, 1)?;
    put(&mut rows, 2)?;
    rows.begin_row()?;
    rows.begin_row()?;
    put(&mut rows, 3)?;
    Ok(rows)
}

// One row of one item, in room for no more.
fn one_in_room(alloc: Global, item: u32) -> Result<RowList<u32>, Memory> {
    let mut rows = RowList::with_room(alloc, 1, 1)?;
    rows.begin_row_in_room();
    rows.push_in_room(item);
    Ok(rows)
}

#[test]
fn rows_hold_their_items(rt: HostRuntime) {
    let rows = three_rows(rt.alloc()).ok().expect(&rt, "memory");
    assert_eq!(rt; rows.rows(), 3);
    assert_eq!(rt; rows.item_count(), 3);
    for (i, items) in [(0, &[1, 2][..]), (1, &[][..]), (2, &[3][..]), (3, &[][..])] {
        assert_eq!(rt; rows.row(i), items, "row {i}");
    }
    assert_eq!(rt; rows.at(0, 1).copied(), Some(2));
    assert_eq!(rt; rows.at(0, 2).copied(), None);
}

#[test]
fn rows_change_and_go(rt: HostRuntime) {
    let mut rows = three_rows(rt.alloc()).ok().expect(&rt, "memory");
    rows.set(2, 0, 9);
    rows.set(1, 0, 8);
    assert_eq!(rt; rows.at(2, 0).copied(), Some(9));
    assert_eq!(rt; rows.at(1, 0).copied(), None);
    if rows.rows() > 0 {
        rows.drop_last_row();
    }
    assert_eq!(rt; rows.rows(), 2);
    assert_eq!(rt; rows.item_count(), 2);
    let one = one_in_room(rt.alloc(), 7).ok().expect(&rt, "memory");
    assert_eq!(rt; one.at(0, 0).copied(), Some(7));
}
