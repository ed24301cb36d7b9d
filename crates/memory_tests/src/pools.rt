//! Each call once, and a pool that is filled, emptied and filled again.

use page_pool::{Full, Pool};
use std::test::Fail;

#[test]
fn a_copy_is_apart_once_it_is_written(rt: HostRuntime) -> Result<(), Fail> {
    let mut pool = Pool::new(rt.alloc(), 2)?;
    pool.write(0, 0x0401, 0x11);
    let copy = pool.copy_table(0);
    assert_eq!(rt; copy, Ok(1));
    assert_eq!(rt; pool.copy_table(0), Err(Full));
    pool.write(1, 0x0401, 0x22);
    pool.write(1, 0xffff, 0x33);
    assert_eq!(rt; pool.page(0, 4).get(1).copied(), Some(0x11));
    assert_eq!(rt; pool.page(1, 4).get(1).copied(), Some(0x22));
    assert_eq!(rt; pool.page(0, 255).last().copied(), Some(0));
    assert_eq!(rt; pool.page(1, 255).last().copied(), Some(0x33));
    Ok(())
}

#[test]
fn a_table_that_was_dropped_is_free_again(rt: HostRuntime) -> Result<(), Fail> {
    let mut pool = Pool::new(rt.alloc(), 2)?;
    let copy = pool.copy_table(0);
    assert_eq!(rt; copy, Ok(1));
    pool.drop_table(1);
    assert_eq!(rt; pool.copy_table(0), Ok(1));
    Ok(())
}
