// Numbers of texts, quotients and lists: values worked by hand.
use abuf_num::{List, NumFault, floor_div, leading_number, round_div, scaled};
use std::test::Fail;

#[test]
fn texts_and_their_values(rt: HostRuntime) {
    let rows: [(&[u8], Result<i64, NumFault>); 24] = [
        (b".5", Ok(32768)),
        (b"-1.", Ok(-65536)),
        (b"1e-7", Ok(0)),
        (b"32767.99999", Ok(2147483647)),
        (b"32768", Err(NumFault::Range)),
        (b"0.0000012345678901234567", Ok(0)),
        (b"0000000000000000000000000000001", Err(NumFault::Digits)),
        (b"1e", Err(NumFault::Form)),
        (b"", Err(NumFault::Form)),
        (b"+.5e1", Ok(327680)),
        (b"-0.00000762939453125", Ok(-1)),
        (b"0.00000762939453124", Ok(0)),
        (b"32767.999999", Err(NumFault::Range)),
        (b"-32768", Err(NumFault::Range)),
        (b"1e5", Err(NumFault::Range)),
        (b"1e0001", Err(NumFault::Digits)),
        (b"1e-999", Ok(0)),
        (b"0000000000000000001", Ok(65536)),
        (b"-00000000000000000001", Ok(-65536)),
        (b"9999999999999999999", Err(NumFault::Range)),
        (b"0.00000000000000000000000000001", Ok(0)),
        (b"+", Err(NumFault::Form)),
        (b"-.", Err(NumFault::Form)),
        (b"1.5.", Err(NumFault::Form)),
    ];
    for (text, want) in rows {
        assert!(rt; scaled(text, 65536) == want);
    }
}

#[test]
fn numbers_at_the_start_of_a_text(rt: HostRuntime) {
    let rows: [(&[u8], Option<(i64, usize)>); 10] = [
        (b"-1.5 2", Some((-98304, 4))),
        (b"+.5", Some((32768, 3))),
        (b"2.\t", Some((131072, 2))),
        (b"12e-1x", Some((78643, 5))),
        (b"1E+01,", Some((655360, 5))),
        (b"0.12345678901234567890", Some((8091, 19))),
        (b"1e", None),
        (b"-. 1", None),
        (b"32768", None),
        (b"", None),
    ];
    for (text, want) in rows {
        let got = match leading_number(text, 65536) {
            Some(number) => Some((number.value, number.length)),
            None => None,
        };
        assert!(rt; got == want);
    }
}

#[test]
fn quotients_are_rounded(rt: HostRuntime) {
    for (n, down, near) in [
        (5, 2, 3),
        (-5, -3, -3),
        (-4, -2, -2),
        (1, 0, 1),
        (-1, -1, -1),
    ] {
        assert_eq!(rt; floor_div(n, 2), down, "{n}");
        assert_eq!(rt; round_div(n, 2), near, "{n}");
    }
    assert_eq!(rt; floor_div(-1, 3), -1);
    assert_eq!(rt; floor_div(-18446744073709551617, 2), -9223372036854775809);
    assert_eq!(rt; floor_div(-9223372036854775808, 9223372036854775808), -1);
    assert_eq!(rt; round_div(-1, 3), 0);
}

#[test]
fn a_list_keeps_its_items_in_order(rt: HostRuntime) -> Result<(), Fail> {
    let mut list = List::new(rt.alloc());
    list.push(3)?;
    list.push(1)?;
    assert!(rt; list.as_slice() == [3u8, 1].as_slice());
    let again = List::from_vec(list.into_vec());
    assert!(rt; again.as_slice() == [3u8, 1].as_slice());
    Ok(())
}
