//! Rows at their ends, and one between.
use crate::{jahn_row, order_row, symbol_row};

#[test]
fn rows(rt: HostRuntime) {
    assert!(rt; symbol_row(0).is_none() && order_row(0).is_none());
    assert!(rt; symbol_row(1) == Some("1") && order_row(1) == Some(1));
    assert!(rt; symbol_row(110) == Some("m-31'") && order_row(110) == Some(48));
    assert!(rt; symbol_row(122) == Some("m'-3'm'") && order_row(122) == Some(48));
    assert!(rt; symbol_row(123).is_none() && order_row(123).is_none());
    assert!(rt; jahn_row(0) == Some("V") && jahn_row(7) == Some("e[V2]") && jahn_row(8).is_none());
}
