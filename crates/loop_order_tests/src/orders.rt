//! Legal orders, and the choice of one.
use loop_order::{choose, legal, reads_come_first, stores_come_first};
use rank_shape::{Dist, Entry, Order, Shape, walk};
use std::test::Fail;

fn levels(order: Option<Order<2>>) -> Option<[(u8, bool); 2]> {
    let order = order?;
    Some([
        (order.loop_at(0), order.is_down(0)),
        (order.loop_at(1), order.is_down(1)),
    ])
}

#[test]
fn two_loops(rt: HostRuntime) -> Result<(), Fail> {
    let any = Entry::Any;
    let known = |loop_1, loop_2| Dist {
        entries: [Entry::Known(loop_1), Entry::Known(loop_2)],
    };
    let diagonal = [known(1, -1)];
    assert_eq!(rt;
        levels(choose(&diagonal, true)),
        Some([(2, false), (1, false)])
    );
    let both_ways = [known(1, -1), known(-1, -1)];
    assert_eq!(rt;
        levels(choose(&both_ways, true)),
        Some([(2, false), (1, false)])
    );
    let outer_known = [Dist {
        entries: [any, Entry::Known(2)],
    }];
    assert_eq!(rt;
        levels(choose(&outer_known, true)),
        Some([(2, true), (1, false)])
    );
    let open = [Dist {
        entries: [any, Entry::Known(0)],
    }];
    assert_eq!(rt; levels(choose(&open, true)), None);
    assert_eq!(rt; levels(choose(&[known(0, 1)], false)), None);
    assert_eq!(rt;
        levels(choose(&[known(0, -1)], false)),
        Some([(2, false), (1, false)])
    );
    Ok(())
}

#[test]
fn one_loop_and_seven(rt: HostRuntime) -> Result<(), Fail> {
    let row = [Dist {
        entries: [Entry::Known(1)],
    }];
    let order = choose(&row, true).ok_or("row")?;
    order.known();
    assert_eq!(rt; (order.loop_at(0), order.is_down(0)), (1, true));
    assert!(rt; legal(&order, &row));
    assert!(rt; !legal(&Order::<1>::element_order(), &row));
    let cell = [Dist {
        entries: [Entry::Known(0), Entry::Any, Entry::Known(3)],
    }];
    let order = choose(&cell, true).ok_or("cell")?;
    order.known();
    assert_eq!(rt;
        (order.loop_at(0), order.is_down(0), order.loop_at(1)),
        (3, true, 2)
    );
    let cube = [Dist {
        entries: [
            Entry::Any,
            Entry::Known(5),
            Entry::Known(0),
            Entry::Any,
            Entry::Known(0),
            Entry::Known(0),
            Entry::Known(0),
        ],
    }];
    let order = choose(&cube, true).ok_or("cube")?;
    order.known();
    assert_eq!(rt;
        (
            order.loop_at(2),
            order.loop_at(3),
            order.loop_at(4),
            order.loop_at(5)
        ),
        (5, 3, 2, 4)
    );
    assert_eq!(rt; (order.is_down(3), order.is_down(4)), (false, true));
    let shape = Shape::new([1, 2, 1, 2, 1, 1, 1]).ok_or("shape")?;
    if legal(&order, &cube) {
        reads_come_first(&shape, &order, &cube);
        stores_come_first(&shape, &order, &[]);
    }
    assert_eq!(rt; walk(shape, order).count(), 4);
    Ok(())
}
