//! Shapes, places, orders and walks.
use rank_shape::{AnyShape, Order, Place, Shape, element_order_walk, walk};
use std::test::Fail;

#[test]
fn shapes_have_at_most_two_to_the_24_places(rt: HostRuntime) -> Result<(), Fail> {
    assert_eq!(rt; Shape::new([1 << 24]).ok_or("one")?.size(), 1 << 24);
    assert!(rt; Shape::new([(1 << 24) + 1]).is_none());
    assert_eq!(rt; Shape::new([4096, 4096]).ok_or("square")?.size(), 1 << 24);
    assert!(rt; Shape::new([4096, 4097]).is_none());
    assert_eq!(rt; Shape::new([1 << 40, 1 << 40, 0]).ok_or("empty")?.size(), 0);
    assert_eq!(rt;
        Shape::new([2, 2, 2, 2, 2, 2, 2]).ok_or("seven")?.size(),
        128
    );
    assert!(rt; Shape::new([16, 16, 16, 16, 16, 16, 16]).is_none());
    Ok(())
}

#[test]
fn places_have_numbers(rt: HostRuntime) -> Result<(), Fail> {
    let shape = Shape::new([2, 3, 4]).ok_or("shape")?;
    assert_eq!(rt; (shape.rank(), shape.extent(1)), (3, 3));
    assert_eq!(rt; shape.place_of(17).at, [1, 2, 2]);
    assert_eq!(rt; shape.rank_of(&Place { at: [1, 2, 2] }), 17);
    let row = Shape::new([5]).ok_or("row")?;
    assert_eq!(rt; row.place_of(4).at, [4]);
    assert_eq!(rt; row.rank_of(&Place { at: [3] }), 3);
    let cube = Shape::new([2, 2, 2, 2, 2, 2, 2]).ok_or("cube")?;
    assert_eq!(rt; cube.place_of(65).at, [1, 0, 0, 0, 0, 0, 1]);
    assert_eq!(rt;
        cube.rank_of(&Place {
            at: [0, 1, 0, 0, 0, 1, 0]
        }),
        34
    );
    let any = AnyShape::Three(shape);
    assert_eq!(rt; (any.rank(), any.size()), (3, 24));
    Ok(())
}

#[test]
fn orders_name_each_loop(rt: HostRuntime) -> Result<(), Fail> {
    let order = Order::new([2, 3, 1], [false, true, false]).ok_or("order")?;
    order.known();
    assert_eq!(rt; (order.loop_at(1), order.is_down(1)), (3, true));
    assert!(rt; Order::new([2, 3, 2], [false, true, false]).is_none());
    assert!(rt; Order::new([2], [false]).is_none());
    let element = Order::<7>::element_order();
    element.known();
    assert_eq!(rt;
        (element.loop_at(0), element.is_down(0), element.loop_at(6)),
        (7, false, 1)
    );
    Ok(())
}

#[test]
fn walks_go_through_each_place(rt: HostRuntime) -> Result<(), Fail> {
    let shape = Shape::new([2, 1, 3]).ok_or("shape")?;
    let order = Order::new([1, 3, 2], [false, true, false]).ok_or("order")?;
    let mut text = String::new(rt.alloc());
    for place in walk(shape, order) {
        let at = place.at;
        text.push_str(format!(in rt.alloc(); "{at:?} ")?.as_str())?;
    }
    assert_eq!(rt;
        text.as_str(),
        "[0, 0, 2] [0, 0, 1] [0, 0, 0] [1, 0, 2] [1, 0, 1] [1, 0, 0] "
    );
    let row = Shape::new([3]).ok_or("row")?;
    let backwards = Order::new([1], [true]).ok_or("backwards")?;
    assert_eq!(rt; walk(row, backwards).next(), Some(Place { at: [2] }));
    let cube = Shape::new([1, 2, 1, 2, 1, 2, 3]).ok_or("cube")?;
    element_order_walk(&cube);
    let mut turns = 0_u32;
    for _ in walk(cube, Order::element_order()) {
        turns = turns.saturating_add(1);
    }
    assert_eq!(rt; turns, 24);
    Ok(())
}
