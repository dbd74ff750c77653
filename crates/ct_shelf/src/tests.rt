use super::*;
use std::test::Fail;

#[test]
fn keeps_its_order(rt: HostRuntime) -> Result<(), Fail> {
    let mut shelf = Shelf::open(rt.alloc(), 4)?;
    assert!(rt; shelf.is_empty());
    shelf.push(10u32);
    shelf.push(30);
    shelf.insert(1, 20);
    shelf.insert(0, 5);
    assert_eq!(rt; (shelf.len(), shelf.room()), (4, 0));
    *shelf.item_mut(2) = 21;
    assert_eq!(rt; shelf.remove(1), 10);
    assert_eq!(rt;
        (*shelf.item(0), *shelf.item(1), *shelf.item(2)),
        (5, 21, 30)
    );
    shelf.insert(1, 6);
    assert_eq!(rt;
        (*shelf.item(1), *shelf.item(2), *shelf.item(3)),
        (6, 21, 30)
    );
    assert_eq!(rt; shelf.remove(3), 30);
    assert_eq!(rt; shelf.room(), 1);
    Ok(())
}
